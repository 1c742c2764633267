// The parameters of the function, bound to the vector's numbers.
ghost use Rattle.std.specs.Prelude.{◌≡◌, take};
ghost use Rattle.source.specs.Vector.{vector_number};
ghost use Rattle.source.specs.Parameters.{parameters};
ghost use Rattle.scope.specs.Part.{part};
ghost use Rattle.scope.specs.Parameters.{keyed, parameter_bound};
ghost use Rattle.scope.specs.Scope.{each};
ghost use Rattle.scope.specs.Code.Held.{SimulatesTo, Within, keyed_as};

use crate::refusal::AssembleError;
use crate::state::TableState;
use base::Span;
use figures::Figures;
use source::parameters::Parameters;
use source::vector::json_u64_for_key;

// The parameters in a part of the contract. `read_function` calls it with the offsets that `find_function` found in a
// contract of at most 65,536 bytes.
pub fn bind_parameters(
    contract: &[u8],
    vector: &[u8],
    params: Span,
    state: TableState,
) -> Result<TableState, AssembleError>
    requires { Within contract.now params.start params.end }
    ensures { SimulatesTo (take params.start contract.now) state
        (λ st. each (parameter_bound vector.now) 1 st (parameters (part contract.now params.start params.end)))
        (take params.end contract.now) result }
{
    let mut state = state;
    let names = Parameters {
        text: &contract[..params.end],
        at: params.start,
    };
    for (place, name) in (1..).zip(names) {
        let number = number_for(vector, &contract[name.start..name.end], place)?;
        let expr = Span {
            start: name.end,
            end: name.end,
        };
        state.bind(contract, name, expr, Figures::of_number(number, 0))?;
    }
    Ok(state)
}

// The number that the vector has for a key with a place.
pub fn number_for(vector: &[u8], key: &[u8], place: usize) -> Result<u64, AssembleError>
    ensures { keyed_as result ≡ keyed (vector_number vector.now key.now) place }
{
    json_u64_for_key(vector, key).map_err(|e| AssembleError::Key(e, place))
}
