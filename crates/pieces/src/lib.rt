// Text put together piece by piece at the start of a lent buffer. What has no room is cut off. How long the text is travels beside the
// buffer: in a struct that holds it, each contract would have to say what the field held at entry.
#![tactic(auto)]

ghost use Rattle.decimal.specs.Decimal.{decimal};
ghost use Rattle.pieces.specs.Code.Added.{Added};

use writer::{put_bytes, put_decimal};

// Bytes behind the first `len` of the buffer; how long the text then is.
pub fn add_bytes(out: &mut [u8], len: usize, bytes: &[u8]) -> usize
    ensures { Added out.old len bytes.now out.new result }
{
    if out.len() < len {
        return out.len();
    }
    let fitting = bytes.len().min(out.len() - len);
    put_bytes(out, len, &bytes[..fitting])
}

#[tactic(auto, using(decimal::proofs::Laws::length_word))]
pub fn add_decimal(out: &mut [u8], len: usize, n: u64) -> usize
    ensures { Added out.old len (decimal n) out.new result }
{
    // no number has more, and memory is fixed
    let mut digits = [0u8; 20];
    let count = put_decimal(&mut digits, 0, n);
    add_bytes(out, len, &digits[..count])
}
