// Signs of an expression: a token of one byte or ==, and the levels of the operators among them.
// Offsets stay beside the slice, since the contracts speak of places in the whole text.
ghost use Rattle.std.specs.Prelude.{◌≡◌};
ghost use Rattle.grammar.specs.Parse.{symbol};
ghost use Rattle.expression.specs.Code.Parts.{sign_of, sign_at, level_of};

use token::token_at;
use word::Operator;

#[derive(Clone, Copy, Debug, PartialEq, Eq)]
pub enum Sign {
    Operator(Operator),
    Open,
    Close,
}

// A sign, and where its token ends.
#[derive(Clone, Copy, Debug, PartialEq, Eq)]
pub struct SignAt {
    pub sign: Sign,
    pub end: usize,
}

// How tightly an operator binds, the tightest first.
#[derive(Clone, Copy, Debug, PartialEq, Eq, PartialOrd, Ord)]
pub enum Level {
    Product,
    Sum,
    Comparison,
}

// The token at or after an offset as a sign, where one is left and is one.
pub fn sign_at(text: &[u8], at: usize) -> Option<SignAt>
    ensures { result ≡ sign_at text.now at }
{
    let token = token_at(text, at)?;
    let sign = sign_of(&text[token.start..token.end])?;
    Some(SignAt {
        sign,
        end: token.end,
    })
}

pub fn sign_of(token: &[u8]) -> Option<Sign>
    ensures { result ≡ sign_of token.now }
{
    match token {
        [b'('] => Some(Sign::Open),
        [b')'] => Some(Sign::Close),
        [b'+'] => Some(Sign::Operator(Operator::Add)),
        [b'-'] => Some(Sign::Operator(Operator::Sub)),
        [b'*'] => Some(Sign::Operator(Operator::Mul)),
        [b'/'] => Some(Sign::Operator(Operator::Div)),
        [b'<'] => Some(Sign::Operator(Operator::Less)),
        [b'=', b'='] => Some(Sign::Operator(Operator::Equal)),
        _ => None,
    }
}

// The byte of a token of one byte, that of = for == and for no other, else 0.
pub fn symbol_byte(token: &[u8]) -> u8
    ensures { result ≡ symbol token.now }
{
    match token {
        [b'='] => 0,
        [byte] => *byte,
        [b'=', b'='] => b'=',
        _ => 0,
    }
}

pub fn level_of(operator: Operator) -> Level
    ensures { result ≡ level_of operator }
{
    match operator {
        Operator::Mul | Operator::Div => Level::Product,
        Operator::Add | Operator::Sub => Level::Sum,
        Operator::Less | Operator::Equal => Level::Comparison,
    }
}
