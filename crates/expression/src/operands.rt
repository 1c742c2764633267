// The figures of a name, and what may follow an operand: a closing parenthesis or the end.
ghost use Rattle.std.specs.Prelude.{◌≡◌, ◌<◌, drop};
ghost use Rattle.token.specs.Token.{tokens};
ghost use Rattle.token.specs.Code.Places.{end_at};
ghost use Rattle.bindings.specs.Code.Table.{entry_at};
ghost use Rattle.bindings.specs.Code.Known.{known_columns};
ghost use Rattle.expression.specs.Code.Parts.{bound_read, closed_read, whole_read, Fits};

use crate::ExprError;
use crate::parts::{Sign, sign_of};
use bindings::names::Known;
use figures::Figures;
use token::token_at;

// A name of binding i that ends at an offset.
pub fn bound(known: Known, i: usize, end: usize) -> Figures
    requires { i < 256 }
    ensures fits { Fits result }
    ensures same { result ≡ bound_read (entry_at (known_columns known.entry) i) end }
{
    Figures {
        next: end,
        k: u64::from(known.table.k[i]),
        p: u64::from(known.table.p[i]),
        len: u64::from(known.values.len[i]),
        value: known.values.value_of(i),
    }
}

// The ) that is due behind an expression in parentheses.
#[tactic(auto, using(crate::proofs::Atoms::close_is, crate::proofs::Atoms::close_other))]
pub fn close(text: &[u8], inner: Figures) -> Result<Figures, ExprError>
    ensures { result ≡ closed_read (tokens (drop inner.next text.now)) (end_at text.now inner.next) inner }
{
    let token = token_at(text, inner.next).ok_or(ExprError::UnexpectedEnd)?;
    if sign_of(&text[token.start..token.end]) == Some(Sign::Close) {
        return Ok(Figures {
            next: token.end,
            ..inner
        });
    }
    Err(ExprError::UnbalancedParenthesis)
}

// No token may be left over.
pub fn whole(text: &[u8], read: Figures) -> Result<Figures, ExprError>
    ensures { result ≡ whole_read (tokens (drop read.next text.now)) read }
{
    match token_at(text, read.next) {
        Some(_) => Err(ExprError::UnconsumedTokens),
        None => Ok(read),
    }
}
