// A factor of an expression, as its first token says it.
// Offsets stay beside the slice, since the contracts speak of places in the whole text.
ghost use Rattle.std.specs.Prelude.{◌≡◌, get_or};
ghost use Rattle.base.specs.Lists.{all};
ghost use Rattle.decimal.specs.Decimal.{digit};
ghost use Rattle.bindings.specs.Code.Known.{Few};
ghost use Rattle.expression.specs.Code.Factor.{known_factor, known_factor_at};

use crate::ExprError;
use bindings::names::Known;
use decimal::digits_at;
use token::{is_digit, token_at};

#[derive(Clone, Copy, Debug, PartialEq, Eq)]
pub enum Factor {
    Open,
    Literal(u64),
    Name(usize),
}

// A factor, and where its first token ends.
#[derive(Clone, Copy, Debug, PartialEq, Eq)]
pub struct FactorAt {
    pub factor: Factor,
    pub end: usize,
}

// The factor starting at an offset of a text. Parsing and emission call it with at most 256 bindings. It and `factor_of` are inlined:
// where they were called, 64 open parentheses took 1.2 of the time.
#[inline(always)]
pub fn factor_at(known: Known, text: &[u8], at: usize) -> Result<FactorAt, ExprError>
    requires { Few known }
    ensures { result ≡ known_factor_at known.entry text.now at }
{
    let token = token_at(text, at).ok_or(ExprError::UnexpectedEnd)?;
    let factor = factor_of(known, &text[token.start..token.end])?;
    Ok(FactorAt {
        factor,
        end: token.end,
    })
}

// The factor that a token is, or that ( starts.
#[inline(always)]
fn factor_of(known: Known, token: &[u8]) -> Result<Factor, ExprError>
    requires few { Few known }
    requires digits { all digit token.now ≡ digit (get_or token.now 0 0) }
    ensures { result ≡ known_factor known.entry token.now }
{
    match token {
        [b'('] => Ok(Factor::Open),
        [first, ..] if is_digit(*first) => digits_at(token, 0)
            .value
            .map(Factor::Literal)
            .ok_or(ExprError::InvalidLiteral),
        _ => known
            .lookup(token)
            .map(Factor::Name)
            .ok_or(ExprError::UnknownIdentifier),
    }
}
