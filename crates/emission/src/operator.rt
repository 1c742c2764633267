// What follows a factor: an operator, a closing parenthesis or the end.
// Offsets stay beside the slices, since the contracts speak of places in the whole text and the whole output.
ghost use Rattle.emission.specs.Code.Turn.{CanTurn, Turns};

use crate::waiting::Waiting;
use expression::parts::{Level, Sign, SignAt, level_of, sign_at};

// Where the expression goes on, the offset behind what was written, and whether a factor is due: of two states a flag is as plain.
#[derive(Clone, Copy)]
pub struct Turn {
    pub at: usize,
    pub to: usize,
    pub due: bool,
}

// An operator first writes every waiting one that binds as tightly or tighter, then waits. A parenthesis writes down to its mark and
// takes it away, the end writes all. The loop calls it in a text that ends with an expression that was parsed: so what is written has
// room, no more wait than the array holds, a closing parenthesis has its mark, and where none of the two comes next, the end does.
pub fn operate(text: &[u8], at: usize, out: &mut [u8], to: usize, waiting: &mut Waiting) -> Turn
    requires { CanTurn text.now at out.old to waiting.old }
    ensures { Turns text.now at out.old to waiting.old out.new waiting.new result }
{
    match sign_at(text, at) {
        Some(
            SignAt {
                sign: Sign::Operator(operator),
                end: next,
            },
        ) => {
            let behind = waiting.write(out, to, level_of(operator));
            waiting.push(Some(operator));
            Turn {
                at: next,
                to: behind,
                due: true,
            }
        }
        Some(
            SignAt {
                sign: Sign::Close,
                end: next,
            },
        ) => {
            let behind = waiting.write(out, to, Level::Comparison);
            waiting.count -= 1;
            Turn {
                at: next,
                to: behind,
                due: false,
            }
        }
        _ => Turn {
            at: text.len(),
            to: waiting.write(out, to, Level::Comparison),
            due: false,
        },
    }
}
