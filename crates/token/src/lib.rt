// Tokens of an expression, found in its bytes.
// Offsets stay beside the slice, since the contracts speak of places in the whole text.
#![tactic(auto)]

ghost use Rattle.std.specs.Prelude.{◌≡◌, ◌&&◌, ◌+◌, ◌<◌, ◌≤◌, eqb, length, get_or, drop};
ghost use Rattle.std.specs.List.{prefix_len};
ghost use Rattle.decimal.specs.Decimal.{digit};
ghost use Rattle.token.specs.Token.{space, name_start, name_part, sign, allowed};
ghost use Rattle.token.specs.Code.Bytes.{allowed_byte, goes_on, second, rest};
ghost use Rattle.token.specs.Code.Places.{token_at};

use base::{Span, in_range};

// The first token at or after an offset, where one is left.
pub fn token_at(text: &[u8], at: usize) -> Option<Span>
    ensures { result ≡ token_at text.now at }
{
    let start = token_start(text, at);
    if text.len() <= start {
        return None;
    }
    let end = token_end(text, start);
    Some(Span { start, end })
}

// Whether every byte at or after an offset parts tokens or is in one.
#[tactic(auto, using(crate::proofs::Allowed::one_more, crate::proofs::Allowed::pair_more, crate::proofs::Allowed::none_more))]
pub fn is_all_tokens(text: &[u8], at: usize) -> bool
    ensures { result ≡ allowed (drop at text.now) }
{
    let mut i = at;
    // A step passes one byte or two, so no iterator is plainer.
    while i < text.len() {
        if is_allowed(text[i]) {
            i += 1;
        } else if is_pair_at(text, i) {
            i += 2;
        } else {
            return false;
        }
    }
    true
}

pub fn is_digit(a: u8) -> bool
    ensures { result ≡ digit a }
{
    a.is_ascii_digit()
}

fn token_start(text: &[u8], at: usize) -> usize
    ensures { result ≡ at + prefix_len space (drop at text.now) }
{
    at + text.get(at..).map_or(0, spaces)
}

// How many bytes at the start of a text part tokens.
fn spaces(text: &[u8]) -> usize
    ensures count { result ≡ prefix_len space text.now }
    ensures within { result ≤ length text.now }
{
    text.iter().take_while(|a| is_space(**a)).count()
}

fn token_end(text: &[u8], start: usize) -> usize
    requires { start < length text.now }
    ensures { result ≡ start + 1 + length (rest (get_or text.now start 0) (drop (start + 1) text.now)) }
{
    let first = text[start];
    if is_name_part(first) {
        return start + 1 + more(first, &text[start + 1..]);
    }
    if is_pair_at(text, start) {
        start + 2
    } else {
        start + 1
    }
}

// How many bytes of what stands behind a byte go on with the digits or the name that it starts.
fn more(first: u8, text: &[u8]) -> usize
    ensures count { result ≡ prefix_len (goes_on first) text.now }
    ensures within { result ≤ length text.now }
{
    text.iter().take_while(|a| goes_on(first, **a)).count()
}

// Whether == stands at an offset of the text.
fn is_pair_at(text: &[u8], i: usize) -> bool
    requires { i < length text.now }
    ensures { result ≡ (eqb (get_or text.now i 0) 61 && eqb (get_or text.now (i + 1) 0) 61) }
{
    text[i..].starts_with(b"==")
}

// A class is joined with no branch: as `matches!`, which has one for each range, 54 bytes of short tokens took a third longer.
fn is_space(a: u8) -> bool
    ensures { result ≡ space a }
{
    in_range(9, 10, a) | in_range(12, 13, a) | (a == b' ')
}

fn is_name_start(a: u8) -> bool
    ensures { result ≡ name_start a }
{
    a.is_ascii_alphabetic() | (a == b'_')
}

fn is_name_part(a: u8) -> bool
    ensures { result ≡ name_part a }
{
    is_name_start(a) | a.is_ascii_digit()
}

fn is_sign(a: u8) -> bool
    ensures { result ≡ sign a }
{
    in_range(b'(', b'+', a) | (a == b'-') | (a == b'/') | (a == b'<')
}

fn is_allowed(a: u8) -> bool
    ensures { result ≡ allowed_byte a }
{
    is_name_part(a) || is_space(a) || is_sign(a)
}

fn goes_on(first: u8, a: u8) -> bool
    ensures { result ≡ goes_on first a }
{
    if is_digit(first) {
        is_digit(a)
    } else {
        is_name_start(first) & is_name_part(a)
    }
}
