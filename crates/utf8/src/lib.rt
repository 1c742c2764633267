// Whether a text is UTF-8, by RFC 3629.
// Offsets stay beside the slice, since the contracts speak of places in the whole text.
#![tactic(auto)]

ghost use Rattle.std.specs.Prelude.{◌≡◌, true, false, ◌+◌, ◌≤◌, ◌<◌, length, get_or, IfSome};
ghost use Rattle.base.specs.Lists.{all};
ghost use Rattle.base.specs.Code.Skips.{SkipsTo, AllFrom};
ghost use Rattle.utf8.specs.Utf8.{utf8, utf8_1, utf8_tail, utf8_2, utf8_3, utf8_4};
ghost use Rattle.utf8.specs.Code.From.{utf8_from, CharactersAt};
ghost use Rattle.utf8.specs.Code.Windows.{opened, follows, FollowAll};

use base::{in_range, pick};

pub fn is_utf8(s: &[u8]) -> bool
    ensures { result ≡ utf8 s.now }
{
    let mut i: usize = 0;
    // A step passes blocks or characters, so no iterator is plainer.
    while i < s.len() {
        let mut next = blocks(s, i);
        if next == i {
            let end = block_end(s, i);
            next = characters(s, i, end);
            if next < end {
                return false;
            }
        }
        i = next;
    }
    true
}

// Passes blocks of 64 bytes as long as they are seen to be UTF-8.
fn blocks(s: &[u8], at: usize) -> usize
    requires { at ≤ length s.now }
    ensures { SkipsTo (utf8_from s.now) at (length s.now) result }
{
    let mut i = at;
    // A step passes 61 to 64 bytes, so no iterator is plainer.
    while let Some(n) = block(s, i) {
        i += n;
    }
    i
}

// How many bytes are passed of the 64 at a position: all of them where they are ASCII, else those of whole
// characters, where it is seen that they are UTF-8.
fn block(s: &[u8], at: usize) -> Option<usize>
    requires { at ≤ length s.now }
    ensures { IfSome result (λ n. (0 < n) × SkipsTo (utf8_from s.now) at (length s.now) (at + n)) }
{
    if is_ascii(s, at, 64) {
        return Some(64);
    }
    if at < 3 || s.len() - at < 64 {
        return None;
    }
    let start = at - 3;
    if is_open_at(s, start) || !all_follow(&s[start..at + 64]) {
        return None;
    }
    let n = 64 - open_len(s[start + 64], s[start + 65], s[start + 66]);
    (!is_open_at(s, start + n)).then_some(n)
}

// Whether each byte behind the first three follows the three before it. No branch: it compiles to vector code.
fn all_follow(s: &[u8]) -> bool
    ensures { result ≡ true → FollowAll s.now }
{
    let mut all = true;
    for w in s.windows(4) {
        all &= does_follow(w[0], w[1], w[2], w[3]);
    }
    all
}

fn does_follow(a: u8, b: u8, c: u8, d: u8) -> bool
    ensures { result ≡ follows a b c d }
{
    let lo = pick(c == 0xE0, 0xA0, pick(c == 0xF0, 0x90, 0x80));
    let hi = pick(c == 0xED, 0x9F, pick(c == 0xF4, 0x8F, 0xBF));
    let first = (d <= 0x7F) | in_range(0xC2, 0xF4, d);
    pick(is_open(a, b, c), in_range(lo, hi, d), first)
}

// Here and below bytes come one by one, as in the table of RFC 3629: an array of them would be taken apart at once.
fn is_open(a: u8, b: u8, c: u8) -> bool
    ensures { result ≡ opened a b c }
{
    (0xC0 <= c) | (0xE0 <= b) | (0xF0 <= a)
}

// Whether a character is not complete behind the three bytes at a position.
fn is_open_at(s: &[u8], at: usize) -> bool
    requires { at + 3 ≤ length s.now }
    ensures { result ≡ opened (get_or s.now at 0) (get_or s.now (at + 1) 0) (get_or s.now (at + 2) 0) }
{
    is_open(s[at], s[at + 1], s[at + 2])
}

// How many of three bytes belong to a character that is not complete behind them.
fn open_len(a: u8, b: u8, c: u8) -> usize
    ensures { result ≤ 3 }
{
    if 0xC0 <= c {
        return 1;
    }
    if 0xE0 <= b {
        return 2;
    }
    if 0xF0 <= a {
        return 3;
    }
    0
}

// Where the block of 64 bytes that starts at a position ends, or the text.
fn block_end(s: &[u8], at: usize) -> usize
    requires { at < length s.now }
    ensures { (at < result) × (result ≤ length s.now) }
{
    s.len().min(at + 64)
}

// Whether n bytes follow that are all ASCII.
#[tactic(auto, using(crate::proofs::Laws::ascii))]
fn is_ascii(s: &[u8], at: usize, n: usize) -> bool
    requires { at ≤ length s.now }
    ensures { result ≡ true → SkipsTo (utf8_from s.now) at (length s.now) (at + n) }
{
    n <= s.len() - at && all_ascii(&s[at..at + n])
}

// No branch: 64 bytes compile to vector code, and eight to one test. std's `is_ascii` looks again at a block with another byte.
fn all_ascii(s: &[u8]) -> bool
    ensures { result ≡ all utf8_1 s.now }
{
    s.iter().fold(true, |all, a| all & (*a <= 0x7F))
}

// Passes characters up to end or over it, and stops before end only where none stands.
fn characters(s: &[u8], at: usize, end: usize) -> usize
    requires { (at ≤ end) × (end ≤ length s.now) }
    ensures { SkipsTo (utf8_from s.now) at (length s.now) result
        × (result < end → utf8_from s.now result ≡ false) }
{
    let mut i = at;
    // A step passes 1 to 8 bytes, so no iterator is plainer.
    while i < end {
        match step(s, i) {
            Some(n) => i += n,
            None => return i,
        }
    }
    i
}

// How many bytes are passed at a position: those of a character, or eight ASCII ones.
fn step(s: &[u8], at: usize) -> Option<usize>
    requires { at < length s.now }
    ensures { CharactersAt s.now at result }
{
    let a = s[at];
    if a <= 0x7F {
        return Some(if is_ascii(s, at, 8) { 8 } else { 1 });
    }
    match &s[at + 1..] {
        [b, ..] if a <= 0xDF => is_two(a, *b).then_some(2),
        [b, c, ..] if a <= 0xEF => is_three(a, *b, *c).then_some(3),
        [b, c, d, ..] => is_four(a, *b, *c, *d).then_some(4),
        _ => None,
    }
}

fn is_tail(a: u8) -> bool
    ensures { result ≡ utf8_tail a }
{
    in_range(0x80, 0xBF, a)
}

fn is_two(a: u8, b: u8) -> bool
    ensures { result ≡ utf8_2 a b }
{
    in_range(0xC2, 0xDF, a) & is_tail(b)
}

// Of the first bytes of three-byte characters E0 and ED alone narrow the second byte.
fn is_three(a: u8, b: u8, c: u8) -> bool
    ensures { result ≡ utf8_3 a b c }
{
    let lo = pick(a == 0xE0, 0xA0, 0x80);
    let hi = pick(a == 0xED, 0x9F, 0xBF);
    in_range(0xE0, 0xEF, a) & in_range(lo, hi, b) & is_tail(c)
}

// Of the first bytes of four-byte characters F0 and F4 narrow the range of the second.
fn is_four(a: u8, b: u8, c: u8, d: u8) -> bool
    ensures { result ≡ utf8_4 a b c d }
{
    let lo = pick(a == 0xF0, 0x90, 0x80);
    let hi = pick(a == 0xF4, 0x8F, 0xBF);
    in_range(0xF0, 0xF4, a) & in_range(lo, hi, b) & is_tail(c) & is_tail(d)
}
