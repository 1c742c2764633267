// The contract's function: where its parameters and its body stand.
ghost use Rattle.numbered.specs.Numbered.{Answered};
ghost use Rattle.source.specs.Function.{function_of, function_error_numbered, function_numbered};

use base::Span;
use numbered::{Answer, Numbered, plain};
use search::{find, find_byte};

// Where the parameters stand, between the parentheses, and the body, between the braces.
#[derive(Clone, Copy, Debug, PartialEq, Eq)]
pub struct Places {
    pub params: Span,
    pub body: Span,
}

#[derive(Clone, Copy, Debug, PartialEq, Eq)]
pub enum FunctionError {
    NoFunction,
    NoParameters,
    UnclosedParameters,
    NoBody,
    UnclosedBody,
}

impl Answer for FunctionError {
    ghost numbered_as = { function_error_numbered };

    fn numbered(self) -> Numbered {
        match self {
            FunctionError::NoFunction => plain(3),
            FunctionError::NoParameters => plain(4),
            FunctionError::UnclosedParameters => plain(5),
            FunctionError::NoBody => plain(6),
            FunctionError::UnclosedBody => plain(7),
        }
    }
}

pub fn find_function(contract: &[u8]) -> Result<Places, FunctionError>
    ensures { Answered function_numbered (function_of contract.now) result }
{
    let name = find(contract, b"fn ", 0).ok_or(FunctionError::NoFunction)?;
    let left = find_byte(contract, b'(', name + 3).ok_or(FunctionError::NoParameters)?;
    let right = find_byte(contract, b')', left + 1).ok_or(FunctionError::UnclosedParameters)?;
    let brace = find_byte(contract, b'{', right + 1).ok_or(FunctionError::NoBody)?;
    let end = find_byte(contract, b'}', brace + 1).ok_or(FunctionError::UnclosedBody)?;
    Ok(Places {
        params: Span {
            start: left + 1,
            end: right,
        },
        body: Span {
            start: brace + 1,
            end,
        },
    })
}
