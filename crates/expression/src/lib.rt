// Expressions of a contract: what one means among the bindings made before it.
#![tactic(auto)]

ghost use Rattle.std.specs.Prelude.{◌≡◌, ◌≤◌, length, IfSome};
ghost use Rattle.grammar.specs.Parse.{factor, term, sum, expression};
ghost use Rattle.expression.specs.Answer.{expr_error_numbered};
ghost use Rattle.expression.specs.Code.Answers.{Answers};
ghost use Rattle.bindings.specs.Code.Table.{columns};
ghost use Rattle.bindings.specs.Code.Known.{known_columns};
ghost use Rattle.expression.specs.Code.Cycle.{CanParse, ParsesAs};
ghost use Rattle.expression.specs.Code.Parts.{operator_in, JoinedTo};
ghost use Rattle.figures.specs.Code.Figures.{SumsFit};

pub mod factors;
mod operands;
pub mod parts;

use bindings::names::Known;
use bindings::{Bindings, Values};
use factors::{Factor, factor_at};
use figures::Figures;
use figures::joining::join;
use numbered::{Answer, Numbered, plain};
use operands::{bound, close, whole};
use parts::{Level, Sign, SignAt, level_of, sign_at};
use token::is_all_tokens;
use word::Operator;

#[derive(Clone, Copy, Debug, PartialEq, Eq)]
pub enum ExprError {
    InvalidCharacter,
    UnexpectedEnd,
    UnbalancedParenthesis,
    InvalidLiteral,
    UnknownIdentifier,
    TooDeep,
    UnconsumedTokens,
}

impl Answer for ExprError {
    ghost numbered_as = { expr_error_numbered };

    fn numbered(self) -> Numbered {
        match self {
            ExprError::InvalidCharacter => plain(13),
            ExprError::UnexpectedEnd => plain(14),
            ExprError::UnbalancedParenthesis => plain(15),
            ExprError::InvalidLiteral => plain(16),
            ExprError::UnknownIdentifier => plain(17),
            ExprError::TooDeep => plain(18),
            ExprError::UnconsumedTokens => plain(19),
        }
    }
}

// An operand that is read, and the sign behind it.
#[derive(Clone, Copy)]
struct Operand {
    pub figures: Figures,
    pub sign: Option<SignAt>,
}

impl Operand {
    // The operator behind it, where that is of a level, and where its token ends.
    fn operator(self, level: Level) -> Option<(Operator, usize)>
        ensures { result ≡ operator_in level self.sign }
    {
        match self.sign {
            Some(
                SignAt {
                    sign: Sign::Operator(operator),
                    end,
                },
            ) if level_of(operator) == level => Some((operator, end)),
            _ => None,
        }
    }
}

// What stands before an operand: what is read so far, and the operator behind it.
#[derive(Clone, Copy)]
struct Left {
    pub figures: Figures,
    pub operator: Operator,
}

// So many parentheses may be open at once.
pub const DEPTH: usize = 64;

// What the expression starting at an offset of the text means, and that it is read up to the end of the text's last token. Its names are
// those of the first bindings, of a count above 256 the first 256. What is free: the answer where they tell no environment (a name that
// isn't inside the text, figures of no tree). The assembler calls it with a part of a contract that has at most 65,536 bytes (1), and its
// table tells the environment that it has read.
pub fn parse(text: &[u8], at: usize, table: Bindings, values: Values) -> Result<Figures, ExprError>
    requires { length text.now ≤ 65536 }
    ensures { Answers text.now at (columns table values) result }
{
    if !is_all_tokens(text, at) {
        return Err(ExprError::InvalidCharacter);
    }
    let known = Known {
        text,
        table: &table,
        values: &values,
        count: table.count.min(256),
    };
    whole(text, expression(known, at, DEPTH)?.figures)
}

// Sums joined by < and ==. Room is how many more parentheses may be open; it and the offset differ from call to call, and `CanParse` is
// one fact of `known`. The three levels differ in the operators' level and in the function that they call; they are three functions since
// the project's rules give the cycle that form, and a cycle goes through no closure. The call stands in one place: with one before the
// loop and one in it, which needs no Option, a sum of 65,000 bytes took 1.9 of the time, since the cycle is then no longer compiled into
// one function.
#[cycle(expression_factor_sum_term)]
fn expression(known: Known, at: usize, room: usize) -> Result<Operand, ExprError>
    requires { CanParse known }
    ensures { ParsesAs known.entry.text.now at (known_columns known.entry) expression room result }
{
    let mut left = None;
    let mut next = at;
    loop {
        let read = joined(left, sum(known, next, room)?);
        let Some((operator, end)) = read.operator(Level::Comparison) else {
            return Ok(read);
        };
        left = Some(Left {
            figures: read.figures,
            operator,
        });
        next = end;
    }
}

// Terms joined by + and -. A function of its own, as said above.
#[cycle(expression_factor_sum_term)]
fn sum(known: Known, at: usize, room: usize) -> Result<Operand, ExprError>
    requires { CanParse known }
    ensures { ParsesAs known.entry.text.now at (known_columns known.entry) sum room result }
{
    let mut left = None;
    let mut next = at;
    loop {
        let read = joined(left, term(known, next, room)?);
        let Some((operator, end)) = read.operator(Level::Sum) else {
            return Ok(read);
        };
        left = Some(Left {
            figures: read.figures,
            operator,
        });
        next = end;
    }
}

// Factors joined by * and /. A function of its own, as said above.
#[cycle(expression_factor_sum_term)]
fn term(known: Known, at: usize, room: usize) -> Result<Operand, ExprError>
    requires { CanParse known }
    ensures { ParsesAs known.entry.text.now at (known_columns known.entry) term room result }
{
    let mut left = None;
    let mut next = at;
    loop {
        let read = joined(left, factor(known, next, room)?);
        let Some((operator, end)) = read.operator(Level::Product) else {
            return Ok(read);
        };
        left = Some(Left {
            figures: read.figures,
            operator,
        });
        next = end;
    }
}

// A literal, a name or an expression in parentheses.
#[cycle(expression_factor_sum_term)]
fn factor(known: Known, at: usize, room: usize) -> Result<Operand, ExprError>
    requires { CanParse known }
    ensures { ParsesAs known.entry.text.now at (known_columns known.entry) factor room result }
{
    let text = known.text;
    let next = factor_at(known, text, at)?;
    let figures = match next.factor {
        Factor::Open => {
            if room == 0 {
                return Err(ExprError::TooDeep);
            }
            let inner = expression(known, next.end, room - 1)?;
            close(text, inner.figures)?
        }
        Factor::Literal(n) => Figures::of_number(n, next.end),
        Factor::Name(i) => bound(known, i, next.end),
    };
    Ok(Operand {
        figures,
        sign: sign_at(text, figures.next),
    })
}

// An operand alone, where nothing stands before it, else what the operator before it joins to it. The figures of what is read from at
// most 65,536 bytes are small.
fn joined(left: Option<Left>, right: Operand) -> Operand
    requires { IfSome left (λ x. SumsFit x.figures) × SumsFit right.figures }
    ensures { JoinedTo left right result }
{
    match left {
        Some(left) => Operand {
            figures: join(left.operator, left.figures, right.figures),
            ..right
        },
        None => right,
    }
}
