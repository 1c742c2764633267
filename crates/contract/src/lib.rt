// What assembly makes of a contract and a vector, before anything is written.
#![tactic(auto)]

ghost use Rattle.std.specs.Prelude.{◌≡◌};
ghost use Rattle.contract.specs.Assembled.{readable, function_read, assembled_tree};
ghost use Rattle.contract.specs.Code.Concluded.{judged, Concludes, Located};

use bindings::{Bindings, Values};
use body::read_body;
use scope::parameters::{bind_parameters, number_for};
use scope::refusal::AssembleError;
use scope::state::Returned;
use scope::table::started;
use source::function::{Places, find_function};
use utf8::is_utf8;

// A contract and a vector have at most so many bytes.
const MAX_TEXT_BYTES: usize = 65536;

// The bindings and the last return, which has the expected value. Left open are what the table's arrays hold from the count on, the number
// beside a binding whose value is none, and at which of the places that give the same names and trees the bindings stand.
#[derive(Clone, Copy)]
pub struct CheckedContract {
    pub table: Bindings,
    pub values: Values,
    pub returned: Returned,
    pub expected: u64,
}

pub fn check_contract(contract: &[u8], vector: &[u8]) -> Result<CheckedContract, AssembleError>
    ensures { Concludes contract.now vector.now
        (assembled_tree contract.now vector.now) result }
{
    if !is_readable(contract) {
        return Err(AssembleError::Contract);
    }
    if !is_readable(vector) {
        return Err(AssembleError::Vector);
    }
    let places = find_function(contract)?;
    read_function(contract, vector, places)
}

fn is_readable(s: &[u8]) -> bool
    ensures { result ≡ readable s.now }
{
    s.len() <= MAX_TEXT_BYTES && is_utf8(s)
}

// The parameters are bound, then the body is read.
fn read_function(
    contract: &[u8],
    vector: &[u8],
    places: Places,
) -> Result<CheckedContract, AssembleError>
    requires { Located contract.now places }
    ensures { Concludes contract.now vector.now
        (function_read contract.now vector.now places) result }
{
    let expected = number_for(vector, b"expected", 0)?;
    let bound = bind_parameters(contract, vector, places.params, started())?;
    let read = read_body(contract, places.body, bound)?;
    let returned = judged(read.last, expected)?;
    Ok(CheckedContract {
        table: read.table,
        values: read.values,
        returned,
        expected,
    })
}

// The last return, if it has the expected value.
fn judged(last: Option<Returned>, expected: u64) -> Result<Returned, AssembleError>
    ensures { result ≡ judged last expected }
{
    let returned = last.ok_or(AssembleError::NoReturn)?;
    let value = returned.read.value.ok_or(AssembleError::NoValue)?;
    if value != expected {
        return Err(AssembleError::NotExpected);
    }
    Ok(returned)
}
