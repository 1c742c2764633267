// Assembly: a contract and its vector to ops text in a lent buffer.
#![tactic(auto)]

ghost use Rattle.std.specs.Prelude.{◌≡◌, length};
ghost use Rattle.contract.specs.Output.{assembled};
ghost use Rattle.assembler.specs.Answers.{assembly_numbered, Assembles};

mod header;
mod output;
mod stem;

use contract::check_contract;
use numbered::{Answer, Numbered, carrying};
use output::write_output;
use scope::refusal::AssembleError;
use stem::stem_fits;

// A success has the bytes written, k, p and the value.
#[derive(Clone, Copy, Debug, PartialEq, Eq)]
pub struct Assembly {
    pub written: usize,
    pub k: u64,
    pub p: u64,
    pub value: u64,
}

impl Answer for Assembly {
    ghost numbered_as = { assembly_numbered };

    fn numbered(self) -> Numbered {
        carrying(0, [self.written as u64, self.k, self.p, self.value])
    }
}

// Assembles a contract with its vector: writes a header with the stem and the expected value, and the operations of the last return's
// expression, at the start of `out`. It refuses with the first of document 01's 1 to 26 that applies, and then leaves `out` unchanged;
// a success leaves unchanged what lies behind the text.
pub fn assemble(
    contract: &[u8],
    vector: &[u8],
    stem: &[u8],
    out: &mut [u8],
) -> Result<Assembly, AssembleError>
    ensures { Assembles (assembled contract.now vector.now stem.now
        (length out.old)) out.old out.new result }
{
    let checked = check_contract(contract, vector)?;
    if !stem_fits(stem) {
        return Err(AssembleError::BadStem);
    }
    write_output(contract, stem, checked, out)
}
