// What a line of the body says, by its offsets in the contract.
ghost use Rattle.std.specs.Prelude.{◌≡◌, length};
ghost use Rattle.body.specs.Code.Places.{Inside, trimmed_in, let_at, trimmed_at, statement_at};

use base::Span;
use search::find_byte;
use source::parameters::trimmed_span;

// A let has a name and an expression, a return an expression. Four cases, one arm of `read_line` each: a Result of an Option of the two
// would nest three matches, and is no plainer.
#[derive(Clone, Copy)]
pub enum StatementSpans {
    Skipped,
    NoEquals,
    Let(Span, Span),
    Return(Span),
}

// `read_line` calls it with the offsets of a line that the cursor gave.
pub fn statement_at(contract: &[u8], line: Span) -> StatementSpans
    requires { Inside 0 (length contract.now) line }
    ensures { result ≡ statement_at contract.now line.start line.end }
{
    // neither word has fewer than 4 bytes
    if line.end - line.start < 4 {
        return StatementSpans::Skipped;
    }
    trimmed_at(contract, trimmed_part(contract, line))
}

// A line that is trimmed. `strip_prefix` gives what follows a word and not its place, so it is no plainer here.
fn trimmed_at(contract: &[u8], line: Span) -> StatementSpans
    requires { Inside 0 (length contract.now) line }
    ensures { result ≡ trimmed_at contract.now line.start line.end }
{
    let text = &contract[line.start..line.end];
    if text.starts_with(b"let ") {
        let start = line.start + 4;
        return let_at(contract, Span { start, ..line });
    }
    if text.starts_with(b"return ") {
        let start = line.start + 7;
        return StatementSpans::Return(trimmed_part(contract, Span { start, ..line }));
    }
    StatementSpans::Skipped
}

// What follows `let `, cut at its first =.
fn let_at(contract: &[u8], text: Span) -> StatementSpans
    requires { Inside 0 (length contract.now) text }
    ensures { result ≡ let_at contract.now text.start text.end }
{
    let Some(i) = find_byte(&contract[text.start..text.end], b'=', 0) else {
        return StatementSpans::NoEquals;
    };
    let equals = text.start + i;
    let name = Span {
        end: equals,
        ..text
    };
    let expr = Span {
        start: equals + 1,
        ..text
    };
    StatementSpans::Let(trimmed_part(contract, name), trimmed_part(contract, expr))
}

// Where the trimmed text of a part of the contract stands.
fn trimmed_part(contract: &[u8], part: Span) -> Span
    requires { Inside 0 (length contract.now) part }
    ensures { result ≡ trimmed_in contract.now part.start part.end }
{
    trimmed_span(&contract[part.start..part.end]).behind(part.start)
}
