// Numbers in plain decimal: read from a text, and written to a buffer.
// Offsets stay beside the slice, since the contracts speak of places in the whole text.
#![tactic(auto)]

ghost use Rattle.std.specs.Prelude.{◌≡◌, ◌==◌, ◌+◌, ◌*◌, ◌^◌, ◌<◌, ◌≤◌, true, length, get_or, drop, MatchOption};
ghost use Rattle.std.specs.List.{prefix_len};
ghost use Rattle.base.specs.Overwrite.{overwrite};
ghost use Rattle.decimal.specs.Decimal.{digit, without_plus, number_of, decimal};
ghost use Rattle.base.specs.Lists.{all, take_while};
ghost use Rattle.decimal.specs.Code.Digits.{digits_at};
ghost use Rattle.decimal.specs.Code.Digits.{written_at, buffer_after};
ghost use Rattle.decimal.specs.Code.Zeros.{ZerosTo};

use base::in_range;

#[derive(Clone, Copy)]
pub struct Digits {
    pub len: usize,
    pub value: Option<u64>,
}

// How many zeros a block has.
const BLOCK: usize = 16;

// The digits starting at an offset: how many, and the number they write or that it is too large.
pub fn digits_at(s: &[u8], at: usize) -> Digits
    ensures { result ≡ digits_at s.now at }
{
    let first = pass_zeros(s, at);
    let run = few_digits_at(s, first);
    let len = first - at + run.len;
    let value = run.value;
    Digits { len, value }
}

// The same, quicker where the digits are few.
pub fn few_digits_at(s: &[u8], at: usize) -> Digits
    ensures { result ≡ digits_at s.now at }
{
    let mut acc: u64 = 0;
    // Not `for i in at..s.len()`: tried, and reading took a tenth more time, numbers of 20 digits twice as much.
    let mut i = at;
    while is_digit_at(s, i) {
        let d = u64::from(s[i] - b'0');
        let Some(more) = with_digit(acc, d) else {
            let len = digits_end(s, i) - at;
            return Digits { len, value: None };
        };
        acc = more;
        i += 1;
    }
    let len = i - at;
    Digits {
        len,
        value: Some(acc),
    }
}

// u64::from_str
pub fn from_str(s: &[u8]) -> Option<u64>
    ensures { result ≡ number_of s.now }
{
    let digits = s.strip_prefix(b"+").unwrap_or(s);
    let run = digits_at(digits, 0);
    let none = run.len == 0;
    if none || run.len < digits.len() {
        return None;
    }
    run.value
}

// How many digits a number has.
pub fn decimal_len(n: u64) -> usize
    ensures { result ≡ length (decimal n) }
{
    n.max(1).ilog10() as usize + 1
}

// A number in plain decimal at an offset of a buffer. Where it doesn't fit, nothing is written.
pub fn write_decimal(n: u64, out: &mut [u8], at: usize) -> Option<usize>
    ensures value { result ≡ written_at n at (length out.old) }
    ensures out_after { out.new ≡ buffer_after n at out.old }
{
    let len = decimal_len(n);
    if out.len() < at || out.len() - at < len {
        return None;
    }
    write_digits(n, out, at, len);
    Some(at + len)
}

fn is_digit_at(s: &[u8], i: usize) -> bool
    ensures { result ≡ digit (get_or s.now i 0) }
{
    i < s.len() && in_range(b'0', b'9', s[i])
}

// Where the digits starting at an offset end.
fn digits_end(s: &[u8], at: usize) -> usize
    requires { at ≤ length s.now }
    ensures { result ≡ at + length (take_while digit (drop at s.now)) }
{
    at + digits_len(&s[at..])
}

// How many digits a text starts with.
fn digits_len(s: &[u8]) -> usize
    ensures count { result ≡ prefix_len digit s.now }
    ensures within { result ≤ length s.now }
{
    s.iter().take_while(|a| in_range(b'0', b'9', **a)).count()
}

// Passes blocks of zeros. Most numbers don't start with one.
fn pass_zeros(s: &[u8], at: usize) -> usize
    ensures { ZerosTo s.now at result }
{
    if !is_zero_at(s, at) {
        return at;
    }
    let (blocks, _) = s[at..].as_chunks::<BLOCK>();
    at + BLOCK * zero_blocks(blocks)
}

// How many blocks of zeros come first.
fn zero_blocks(blocks: &[[u8; BLOCK]]) -> usize
    ensures few { result ≤ length blocks.now }
    ensures zeros { result ≡ prefix_len (all (λ c. c == 48)) blocks.now }
{
    blocks
        .iter()
        .take_while(|block| all_zeros(&block[..]))
        .count()
}

fn is_zero_at(s: &[u8], at: usize) -> bool
    ensures { result ≡ true → at < length s.now }
{
    at < s.len() && s[at] == b'0'
}

fn all_zeros(block: &[u8]) -> bool
    ensures { result ≡ all (λ c. c == 48) block.now }
{
    block.iter().fold(true, |zeros, c| zeros & (*c == b'0'))
}

// A number with one digit more, where that is below 2^64.
fn with_digit(n: u64, d: u64) -> Option<u64>
    ensures { MatchOption result (2 ^ 64 ≤ n * 10 + d) (λ more. (more < 2 ^ 64) × (more ≡ n * 10 + d)) }
{
    n.checked_mul(10)?.checked_add(d)
}

// The len digits of a number, from the last to the first, two in a turn. What is left of the number says when it ends; no iterator has
// that.
fn write_digits(n: u64, out: &mut [u8], at: usize, len: usize)
    requires { (len ≡ length (decimal n)) × (at + len ≤ length out.old) }
    ensures { out.new ≡ overwrite at (decimal n) out.old }
{
    let mut rest = n;
    let mut i = at + len - 1;
    while rest >= 100 {
        out[i] = to_ascii(rest % 10);
        out[i - 1] = to_ascii(rest / 10 % 10);
        rest = rest / 100;
        i -= 2;
    }
    if rest < 10 {
        out[i] = to_ascii(rest);
        return;
    }
    out[i] = to_ascii(rest % 10);
    out[i - 1] = to_ascii(rest / 10);
}

fn to_ascii(d: u64) -> u8
    requires { d ≤ 9 }
    ensures { result ≡ 48 + d }
{
    b'0' + d as u8
}
