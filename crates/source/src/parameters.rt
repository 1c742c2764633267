// The parameters of a function, one after the other, by their places.
// Offsets stay beside the slice, since the contracts speak of places in the whole text.
ghost use Rattle.std.specs.Prelude.{◌≡◌, ◌+◌, ◌-◌, ◌^◌, ◌<◌, ◌≤◌, length, take, drop};
ghost use Rattle.std.specs.Iterator.{at_most};
ghost use Rattle.source.specs.Parameters.{pieces};
ghost use Rattle.source.specs.Code.Cursor.{before, trimmed_span, name_span, placed, parameter_at, GivesName};

use base::Span;
use search::find_byte;
use trim::{trim_end, trim_start};

// Where a parameter's name stands; the parameters behind it are sought from next on.
#[derive(Clone, Copy, Debug, PartialEq, Eq)]
pub struct Parameter {
    pub name: Span,
    pub next: usize,
}

// The names of the parameters of a text from a place on, one after the other.
#[derive(Drop)]
pub struct Parameters<'a> {
    pub text: &'a [u8],
    pub at: usize,
}

impl<'a> Iterator for Parameters<'a> {
    type Item = Span;

    ghost next_gives = { λ s r t. GivesName s.text.now s.at r t.text.now t.at };

    ghost remaining = { λ s. at_most (length s.text.now - s.at) };

    fn next(&mut self) -> Option<Span> {
        let parameter = next_of(self.text, self.at)?;
        self.at = parameter.next;
        Some(parameter.name)
    }
}

// The next parameter of the text before end, from a place on.
pub fn next_parameter(text: &[u8], at: usize, end: usize) -> Option<Parameter>
    ensures { result ≡ parameter_at (take end text.now) at }
{
    next_of(&text[..end.min(text.len())], at)
}

// The next parameter of a whole text. An iterator over the pieces would be a type and an impl of its own for this loop alone, and no
// plainer.
fn next_of(s: &[u8], at: usize) -> Option<Parameter>
    ensures { result ≡ parameter_at s.now at }
{
    let mut i = at;
    while i < s.len() {
        let parameter = parameter_at(s, i);
        if parameter.name.start < parameter.name.end {
            return Some(parameter);
        }
        i = parameter.next;
    }
    None
}

// The parameter of the piece that starts at a place, though its name may be empty.
fn parameter_at(s: &[u8], at: usize) -> Parameter
    requires { at ≤ length s.now }
    ensures { result ≡ placed at (pieces (drop at s.now)) }
{
    let stop = cut(s, b',', at);
    Parameter {
        name: name_of(&s[at..stop]).behind(at),
        next: if stop < s.len() { stop + 1 } else { stop },
    }
}

// Where the name stands in a piece.
fn name_of(piece: &[u8]) -> Span
    ensures { result ≡ name_span piece.now }
{
    let whole = trimmed_span(piece);
    let text = &piece[whole.start..whole.end];
    let colon = cut(text, b':', 0);
    trimmed_span(&text[..colon]).behind(whole.start)
}

// Where the trimmed text stands in a text.
pub fn trimmed_span(s: &[u8]) -> Span
    ensures { result ≡ trimmed_span s.now }
{
    let rest = trim_start(s);
    let start = s.len() - rest.len();
    Span {
        start,
        end: start + trim_end(rest).len(),
    }
}

// Where the text starting at an offset is cut: at the first such byte, or at the end.
fn cut(s: &[u8], b: u8, at: usize) -> usize
    requires { at ≤ length s.now }
    ensures { result ≡ at + length (before b (drop at s.now)) }
{
    find_byte(s, b, at).unwrap_or(s.len())
}
