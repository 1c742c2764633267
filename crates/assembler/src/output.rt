// The output of an accepted contract: the header, the operations of the last return's tree, `Halt`.
ghost use Rattle.assembler.specs.Code.Ready.{Ready, Writes};

use crate::Assembly;
use crate::header::{header_len, put_header};
use contract::CheckedContract;
use emission::emit;
use scope::refusal::AssembleError;
use writer::put_bytes;

// `assemble` calls it where `check_contract` accepts the contract and the stem fits (25).
pub fn write_output(
    contract: &[u8],
    stem: &[u8],
    checked: CheckedContract,
    out: &mut [u8],
) -> Result<Assembly, AssembleError>
    requires { Ready contract.now stem.now checked }
    ensures { Writes contract.now stem.now checked out.old out.new result }
{
    let expected = checked.expected;
    let returned = checked.returned;
    let read = returned.read;
    let room = out.len();
    let frame = header_len(stem, expected) + 5;
    if room < frame || ((room - frame) as u64) < read.len {
        return Err(AssembleError::OutputTooLong);
    }
    let count = returned.count;
    let first = put_header(out, stem, expected);
    let halt = emit(
        contract,
        checked.table,
        checked.values,
        count,
        returned.expr,
        out,
        first,
    );
    let written = put_bytes(out, halt, b"Halt\n");
    Ok(Assembly {
        written,
        k: read.k,
        p: read.p,
        value: expected,
    })
}
