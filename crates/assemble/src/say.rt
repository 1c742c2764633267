// What the program makes of a contract and its vector.
ghost use Rattle.std.specs.Prelude.{length};
ghost use Rattle.contract.specs.Output.{assembled};
ghost use Rattle.assemble.specs.Streams.{Says};

use scope::refusal::AssembleError;

// How many bytes at the start of the buffer are ops text, or the refusal that is said instead.
pub fn say(
    contract: &[u8],
    vector: &[u8],
    stem: &[u8],
    out: &mut [u8],
) -> Result<usize, AssembleError>
    ensures { Says (assembled contract.now vector.now stem.now (length out.old))
        result out.new }
{
    let assembly = assembler::assemble(contract, vector, stem, out)?;
    Ok(assembly.written)
}
