// An operation as the assembler writes it, read from its start on, with no look for the line's end first. The words stand in `mnemonic`
// too: this way is there for speed alone (docs/DECISIONS.md), and answers only where the other does the same.
// Offsets stay beside the slice, since the contracts speak of places in the whole text.
#![tactic(auto)]

ghost use Rattle.std.specs.Prelude.{◌≡◌, true, Some, None, cond, ◌<◌, ◌≤◌, length};
ghost use Rattle.plain_op.specs.Code.Plain.{PlainRead, WordAt};

use mnemonic::word::stands_at;

// An operation, its kind as the byte that C's buffer holds, and where it ends.
#[derive(Clone, Copy)]
pub struct PlainOp {
    pub kind: u8,
    pub operand: u64,
    pub end: usize,
}

// The operation at an offset, if a word, or a word, a space and digits stand there. `operation_line_at` calls it behind White_Space of
// the text.
#[tactic(auto, using(crate::proofs::PlainReads::alone_read))]
pub fn plain_at(text: &[u8], at: usize) -> Option<PlainOp>
    ensures { PlainRead text.now at result }
{
    if text.len() < at || text.len() - at < 2 {
        return None;
    }
    // By the first two bytes; then the whole word is compared.
    match (text[at], text[at + 1]) {
        (b'L', b't') => alone(stands_at(text, at, b"Lt"), 10, at + 2),
        (b'M', b'u') => alone(stands_at(text, at, b"Mul"), 3, at + 3),
        (b'P', b'u') => operand(text, at, stands_at(text, at, b"Push "), 0, at + 5),
        (b'S', b't') => operand(text, at, stands_at(text, at, b"Store "), 12, at + 6),
        (b'S', b'u') => alone(stands_at(text, at, b"Sub"), 2, at + 3),
        (b'S', b'w') => alone(stands_at(text, at, b"Swap"), 6, at + 4),
        (b'C', b'a') => alone(stands_at(text, at, b"Caller"), 13, at + 6),
        (b'A', b'd') => alone(stands_at(text, at, b"Add"), 1, at + 3),
        (b'H', b'a') => alone(stands_at(text, at, b"Halt"), 15, at + 4),
        (b'D', b'i') => alone(stands_at(text, at, b"Div"), 4, at + 3),
        (b'E', b'q') => alone(stands_at(text, at, b"Eq"), 9, at + 2),
        (b'D', b'u') => alone(stands_at(text, at, b"Dup"), 5, at + 3),
        (b'L', b'o') => operand(text, at, stands_at(text, at, b"Load "), 11, at + 5),
        (b'J', b'u') => jumps(text, at),
        _ => None,
    }
}

// The offset is asked to be in the text: so those of the operands fit.
fn jumps(text: &[u8], at: usize) -> Option<PlainOp>
    requires { at < length text.now }
    ensures { PlainRead text.now at result }
{
    let jump = stands_at(text, at, b"Jump ");
    if jump {
        return operand(text, at, jump, 7, at + 5);
    }
    let zero = stands_at(text, at, b"JumpIfZero ");
    if zero {
        return operand(text, at, zero, 14, at + 11);
    }
    operand(text, at, stands_at(text, at, b"JumpIfNotZero "), 8, at + 14)
}

fn alone(fits: bool, kind: u8, end: usize) -> Option<PlainOp>
    ensures { result ≡ cond fits (Some (record { kind = kind; operand = 0; end = end })) None }
{
    fits.then_some(PlainOp {
        kind,
        operand: 0,
        end,
    })
}

// A kind whose word and space stand at an offset, with the offset of what follows.
fn operand(text: &[u8], at: usize, fits: bool, kind: u8, digits: usize) -> Option<PlainOp>
    requires { fits ≡ true → WordAt text.now at kind digits }
    ensures { PlainRead text.now at result }
{
    if !fits {
        return None;
    }
    let run = decimal::few_digits_at(text, digits);
    if run.len == 0 {
        return None;
    }
    let operand = run.value?;
    Some(PlainOp {
        kind,
        operand,
        end: digits + run.len,
    })
}
