// Pieces of ops text, written one after the other into a lent buffer. Each call has room for its piece and returns the offset behind it.
// The offset stays beside the buffer: the contracts speak of places in the whole buffer, and a struct that holds the `&mut` would have to
// say in each of them what the buffer held at entry.
#![tactic(auto)]

ghost use Rattle.std.specs.Prelude.{◌≡◌, [], ◌∷◌, ◌++◌, ◌+◌, ◌≤◌, length};
ghost use Rattle.decimal.specs.Decimal.{decimal};
ghost use Rattle.kinds.specs.Kinds.{kind_of, operation};
ghost use Rattle.mnemonic.specs.Kinds.{follows};
ghost use Rattle.mnemonic.specs.Written.{written};
ghost use Rattle.writer.specs.Code.Overwrites.{Overwrites};

use base::copy;
use decimal::{decimal_len, write_decimal};

pub fn put_bytes(out: &mut [u8], at: usize, bytes: &[u8]) -> usize
    requires { at + length bytes.now ≤ length out.old }
    ensures { Overwrites out.old at bytes.now out.new result }
{
    let end = at + bytes.len();
    copy(&mut out[at..end], bytes);
    end
}

pub fn put_decimal(out: &mut [u8], at: usize, n: u64) -> usize
    requires { at + length (decimal n) ≤ length out.old }
    ensures { Overwrites out.old at (decimal n) out.new result }
{
    write_decimal(n, out, at).unwrap_or(at)
}

// The line `Push n`.
pub fn put_push(out: &mut [u8], at: usize, n: u64) -> usize
    requires { at + length (written (operation 0 n)) ≤ length out.old }
    ensures { Overwrites out.old at (written (operation 0 n)) out.new result }
{
    put_with(out, at, b"Push ", n)
}

// The line of an operation as the assembler writes it, its kind being the byte that C's buffer holds. One above 15 has no word.
pub fn put_operation(out: &mut [u8], at: usize, kind: u8, operand: u64) -> usize
    requires { at + length (written (operation kind operand)) ≤ length out.old }
    ensures { Overwrites out.old at (written (operation kind operand)) out.new result }
{
    let end = put_bytes(out, at, word(kind));
    if !has_operand(kind) {
        return put_bytes(out, end, b"\n");
    }
    put_with(out, end, b" ", operand)
}

// How long that line is: the word and a line feed, and where an operand follows, a space and its digits.
#[tactic(auto, using(decimal::proofs::Laws::length_word))]
pub fn operation_len(kind: u8, operand: u64) -> usize
    ensures { result ≡ length (written (operation kind operand)) }
{
    let word = word(kind).len() + 1;
    if !has_operand(kind) {
        return word;
    }
    word + 1 + decimal_len(operand)
}

// The word of a kind. One above 15 has none.
fn word(kind: u8) -> &'static [u8]
    ensures is { result.now ≡ (kind_of kind).word }
    ensures short { length result.now ≤ 13 }
{
    match kind {
        0 => b"Push",
        1 => b"Add",
        2 => b"Sub",
        3 => b"Mul",
        4 => b"Div",
        5 => b"Dup",
        6 => b"Swap",
        7 => b"Jump",
        8 => b"JumpIfNotZero",
        9 => b"Eq",
        10 => b"Lt",
        11 => b"Load",
        12 => b"Store",
        13 => b"Caller",
        14 => b"JumpIfZero",
        15 => b"Halt",
        _ => b"",
    }
}

fn has_operand(kind: u8) -> bool
    ensures { result ≡ follows (kind_of kind).operand }
{
    matches!(kind, 0 | 7 | 8 | 11 | 12 | 14)
}

// What stands before a number, the number, and a line feed.
fn put_with(out: &mut [u8], at: usize, before: &[u8], n: u64) -> usize
    requires { at + length (before.now ++ decimal n ++ 10 ∷ []) ≤ length out.old }
    ensures { Overwrites out.old at (before.now ++ decimal n ++ 10 ∷ []) out.new result }
{
    let number = put_bytes(out, at, before);
    let end = put_decimal(out, number, n);
    put_bytes(out, end, b"\n")
}
