// E1 and E9: assemblies into a buffer of 4,096 bytes.
ghost use Rattle.std.specs.Prelude.{◌≡◌, [], ◌∷◌};
ghost use Rattle.base.specs.Ascii.{ascii};
ghost use Rattle.base.specs.Overwrite.{overwrite};
ghost use Rattle.contract.specs.Output.{assembled};
ghost use Rattle.assembler.specs.Answers.{assembly_answer_numbered};
ghost use Rattle.numbered.specs.Numbered.{carrying};
ghost use Rattle.examples.specs.Numbers.{Gives};
ghost use Rattle.examples.specs.Runs.{zeros};
ghost use Rattle.examples.specs.Bench.{tally_ops};

use assembler::{Assembly, assemble};
use scope::refusal::AssembleError;

pub fn tally(out: &mut [u8; 4096]) -> Result<Assembly, AssembleError>
    requires { out.old ≡ zeros }
    ensures { Gives (assembly_answer_numbered result) (carrying 0 (67 ∷ 3 ∷ 2 ∷ 24 ∷ []))
        out.new (overwrite 0 tally_ops zeros) }
{
    assemble(
        b"fn total (a, b) {\n  let s = a + b\n  return s * 2\n}\n",
        b"{\"a\": 5, \"b\": 7, \"expected\": 24}",
        b"tally",
        out,
    )
}

pub fn precedence() -> Result<Assembly, AssembleError>
    ensures { assembly_answer_numbered result ≡ carrying 0 (62 ∷ 3 ∷ 3 ∷ 1 ∷ []) }
{
    answer(b"fn f () {\n  return 7 - 2 * 3\n}\n", b"{\"expected\": 1}")
}

pub fn left_to_right() -> Result<Assembly, AssembleError>
    ensures { assembly_answer_numbered result ≡ carrying 0 (62 ∷ 3 ∷ 2 ∷ 2 ∷ []) }
{
    answer(b"fn f () {\n  return 8 / 2 / 2\n}\n", b"{\"expected\": 2}")
}

// An assembly for its answer alone.
fn answer(contract: &[u8], vector: &[u8]) -> Result<Assembly, AssembleError>
    ensures { assembly_answer_numbered result ≡ (assembled contract.now vector.now (ascii "f") 4096).answer }
{
    let mut out = [0; 4096];
    assemble(contract, vector, b"f", &mut out)
}
