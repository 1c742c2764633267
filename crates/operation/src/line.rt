// What one line of a text says.
// Offsets stay beside the slice, since the contracts speak of places in the whole text.
ghost use Rattle.std.specs.Prelude.{◌≡◌, ◌+◌, ◌^◌, ◌<◌, length};
ghost use Rattle.kinds.specs.Kinds.{kind_of};
ghost use Rattle.operation.specs.Line.{from_str, bad_number, operand_of, skipped, line_of};
ghost use Rattle.operation.specs.Code.Fast.{line_read_at, FastRead, Indented};

use super::OpsError;
use base::in_range;
use mnemonic::word::stands_at;
use mnemonic::{Head, classify};
use plain_op::{PlainOp, plain_at};

// Three cases, each with a name: `Result<Option<..>, OpsError>` is no plainer. A kind is the byte that C's buffer holds.
#[derive(Clone, Copy)]
pub enum LineRead {
    Skip,
    Op { kind: u8, operand: u64 },
    Bad(OpsError),
}

// What the line at an offset says, and where the next one starts.
#[derive(Clone, Copy)]
pub struct ReadLine {
    pub read: LineRead,
    pub next: usize,
}

// A line that the fast path knows: an operation, or one that is skipped; and where the next line starts. A `ReadLine` has room for a
// refusal too, and with it in the fast path reading took a sixth more time.
#[derive(Clone, Copy)]
struct KnownLine {
    op: Option<PlainOp>,
    next: usize,
}

// The line that starts at a place, its number being line. `general_line_at` is called at two places, so that LLVM leaves it a function
// of its own: inlined here it made the fast path slower.
pub fn line_read_at(text: &[u8], at: usize, line: usize) -> ReadLine
    ensures { result ≡ line_read_at from_str text.now at line }
{
    if text.len() <= at {
        return general_line_at(text, at, line);
    }
    let Some(known) = fast_line_at(text, at) else {
        return general_line_at(text, at, line);
    };
    let read = match known.op {
        Some(op) => LineRead::Op {
            kind: op.kind,
            operand: op.operand,
        },
        None => LineRead::Skip,
    };
    ReadLine {
        read,
        next: known.next,
    }
}

fn fast_line_at(text: &[u8], at: usize) -> Option<KnownLine>
    requires { at < length text.now }
    ensures { FastRead text.now at result }
{
    let first = first_at(text, at);
    operation_line_at(text, at, first)
}

// Where the White_Space at the start of a line ends.
fn first_at(text: &[u8], at: usize) -> usize
    requires { at < length text.now }
    ensures { Indented text.now at result }
{
    if in_range(b'$', 0x7F, text[at]) {
        return at;
    }
    trim::blanks_end(text, at)
}

// An operation with White_Space before it, from at to first, and behind it; or a line that is skipped.
fn operation_line_at(text: &[u8], at: usize, first: usize) -> Option<KnownLine>
    requires { Indented text.now at first }
    ensures { FastRead text.now at result }
{
    let Some(op) = plain_at(text, first) else {
        return skipped_line_at(text, at, first);
    };
    if stands_at(text, op.end, b"\n") {
        return Some(KnownLine {
            op: Some(op),
            next: op.end + 1,
        });
    }
    let feed = trim::blanks_end(text, op.end);
    if stands_at(text, feed, b"\n") {
        return Some(KnownLine {
            op: Some(op),
            next: feed + 1,
        });
    }
    None
}

// White_Space alone, or a remark with White_Space before it, from at to first.
fn skipped_line_at(text: &[u8], at: usize, first: usize) -> Option<KnownLine>
    requires { Indented text.now at first }
    ensures { FastRead text.now at result }
{
    if stands_at(text, first, b"\n") {
        return Some(KnownLine {
            op: None,
            next: first + 1,
        });
    }
    if !stands_at(text, first, b"#") {
        return None;
    }
    let feed = lines::line_feed(text, first);
    if feed < text.len() {
        return Some(KnownLine {
            op: None,
            next: feed + 1,
        });
    }
    None
}

fn general_line_at(text: &[u8], at: usize, line: usize) -> ReadLine
    ensures { result ≡ line_read_at from_str text.now at line }
{
    let Some(l) = lines::line_at(text, at) else {
        return ReadLine {
            read: LineRead::Skip,
            next: at,
        };
    };
    let read = read_line(&text[at..l.text.end], at, line);
    ReadLine { read, next: l.next }
}

// A line that starts at a place in the text, its number being line.
fn read_line(raw: &[u8], start: usize, line: usize) -> LineRead
    requires { start + length raw.now < 2 ^ 64 }
    ensures { result ≡ line_of from_str line start raw.now }
{
    let from_first = trim::trim_start(raw);
    let t = trim::trim_end(from_first);
    if is_skipped(t) {
        return LineRead::Skip;
    }
    let place = start + (raw.len() - from_first.len());
    match classify(t) {
        Head::Alone(kind) => LineRead::Op { kind, operand: 0 },
        Head::Before(kind, n) => read_operand(&t[n..], kind, line, place + n),
        Head::Unknown => {
            let len = t.len();
            LineRead::Bad(OpsError::UnknownOp { line, place, len })
        }
    }
}

// What follows a kind's word in a trimmed line: it starts at a place in the text.
fn read_operand(rest: &[u8], kind: u8, line: usize, place: usize) -> LineRead
    requires { place + length rest.now < 2 ^ 64 }
    ensures { result ≡ operand_of from_str kind line place rest.now }
{
    let from_first = trim::trim_start(rest);
    let digits = trim::trim_end(from_first);
    match decimal::from_str(digits) {
        Some(operand) => LineRead::Op { kind, operand },
        None => {
            let start = place + (rest.len() - from_first.len());
            LineRead::Bad(bad_number(kind, line, start, digits.len()))
        }
    }
}

fn bad_number(kind: u8, line: usize, place: usize, len: usize) -> OpsError
    ensures { result ≡ bad_number (kind_of kind).operand line place len }
{
    match kind {
        0 => OpsError::BadPush { line, place, len },
        11 | 12 => OpsError::BadSlot { line, place, len },
        _ => OpsError::BadTarget { line, place, len },
    }
}

fn is_skipped(t: &[u8]) -> bool
    ensures { result ≡ skipped t.now }
{
    t.is_empty() || t[0] == b'#'
}
