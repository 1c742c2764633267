// Operators that wait for their right side, the newest last, with a none for each open parenthesis.
ghost use Rattle.std.specs.Prelude.{◌≡◌, ◌+◌, ◌<◌, ◌≤◌, Some, length};
ghost use Rattle.word.specs.Code.Operator.{binary_of};
ghost use Rattle.grammar.specs.Written.{kind_number};
ghost use Rattle.writer.specs.Code.Overwrites.{Overwrites};
ghost use Rattle.expression.specs.Code.Parts.{level_number};
ghost use Rattle.emission.specs.Code.Lines.{operator_text, operators_text};
ghost use Rattle.emission.specs.Code.Waiting.{most, sign_of, popped, stack, pushed, none_waiting, Holds, Newest, Pops};

use expression::DEPTH;
use expression::parts::{Level, level_of};
use word::Operator;
use writer::put_operation;

// How many levels of operators there are.
const LEVELS: usize = 3;

// The most that can wait: an operator of each level, and for each open parenthesis its mark and an operator of each level.
pub const WAITING: usize = LEVELS + (LEVELS + 1) * DEPTH;

// Memory is fixed: a buffer, and how much of it is in use.
#[derive(Clone, Copy)]
pub struct Waiting {
    pub operators: [Option<Operator>; WAITING],
    pub count: usize,
}

impl Waiting {
    // An operator, or none as the mark of a parenthesis.
    pub fn push(&mut self, operator: Option<Operator>)
        requires { self.old.count < most }
        ensures { self.new ≡ pushed self.old operator }
    {
        self.operators[self.count] = operator;
        self.count += 1;
    }

    // Writes the newest waiting operators, as far as they bind at least as tightly as a level, and returns the offset behind them. Its
    // callers walk an expression that was parsed and whose text has room: those that are written are part of that text.
    pub fn write(&mut self, out: &mut [u8], at: usize, level: Level) -> usize
        requires holds { Holds self.old }
        requires room { at + length (operators_text (popped (level_number level) (stack self.old))) ≤ length out.old }
        ensures { Pops out.old at self.old (level_number level) out.new self.new result }
    {
        let mut to = at;
        while let Some(operator) = self.newest(level) {
            to = put_operator(out, to, operator);
            self.count -= 1;
        }
        to
    }

    // The newest, where it is an operator that binds at least as tightly as a level.
    fn newest(&self, level: Level) -> Option<Operator>
        requires { Holds self.now }
        ensures { Newest (level_number level) self.now result }
    {
        if self.count == 0 {
            return None;
        }
        let operator = self.operators[self.count - 1]?;
        (level_of(operator) <= level).then_some(operator)
    }
}

pub fn none_waiting() -> Waiting
    ensures { result ≡ none_waiting }
{
    Waiting {
        operators: [None; WAITING],
        count: 0,
    }
}

fn put_operator(out: &mut [u8], at: usize, operator: Operator) -> usize
    requires { at + length (operator_text (sign_of (Some operator))) ≤ length out.old }
    ensures { Overwrites out.old at (operator_text (sign_of (Some operator))) out.new result }
{
    put_operation(out, at, operator_kind(operator), 0)
}

// The number of the kind, which `put_operation` takes.
fn operator_kind(operator: Operator) -> u8
    ensures { result ≡ kind_number (binary_of operator) }
{
    match operator {
        Operator::Add => 1,
        Operator::Sub => 2,
        Operator::Mul => 3,
        Operator::Div => 4,
        Operator::Equal => 9,
        Operator::Less => 10,
    }
}
