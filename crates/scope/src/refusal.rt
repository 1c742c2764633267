// Why an assembly is refused.
ghost use Rattle.std.specs.Prelude.{◌≡◌};
ghost use Rattle.scope.specs.declared.refusal.AssembleError.TheVariants.{Function};
ghost use Rattle.scope.specs.Numbers.{assemble_error_numbered};

use expression::ExprError;
use numbered::{Answer, Numbered, carrying, located, plain};
use source::function::FunctionError;
use source::vector::KeyError;

// A key's refusal carries its place among the parameters from 1, or 0 for the expected value; a line's the number of that line.
// The last two are given by crate assembler alone.
#[derive(Clone, Copy, Debug, PartialEq, Eq)]
pub enum AssembleError {
    Contract,
    Vector,
    Function(FunctionError),
    Key(KeyError, usize),
    NoEquals(usize),
    Expression(ExprError, usize),
    TooLong(usize),
    TooManyBindings,
    NoReturn,
    NoValue,
    NotExpected,
    BadStem,
    OutputTooLong,
}

impl Answer for AssembleError {
    ghost numbered_as = { assemble_error_numbered };

    fn numbered(self) -> Numbered {
        match self {
            AssembleError::Contract => plain(1),
            AssembleError::Vector => plain(2),
            AssembleError::Function(e) => e.numbered(),
            AssembleError::Key(e, place) => located(e.numbered(), place as u64),
            AssembleError::NoEquals(line) => carrying(12, [line as u64]),
            AssembleError::Expression(e, line) => located(e.numbered(), line as u64),
            AssembleError::TooLong(line) => carrying(20, [line as u64]),
            AssembleError::TooManyBindings => plain(21),
            AssembleError::NoReturn => plain(22),
            AssembleError::NoValue => plain(23),
            AssembleError::NotExpected => plain(24),
            AssembleError::BadStem => plain(25),
            AssembleError::OutputTooLong => plain(26),
        }
    }
}

impl From<FunctionError> for AssembleError {
    ghost from_gives = { λ e x. x ≡ Function e };

    fn from(e: FunctionError) -> AssembleError {
        AssembleError::Function(e)
    }
}
