// Ops text: one operation to a line, read into kinds and operands.
#![tactic(auto)]

ghost use Rattle.std.specs.Prelude.{◌≡◌, true};
ghost use Rattle.base.specs.Part.{Part};
ghost use Rattle.operation.specs.Line.{from_str};
ghost use Rattle.ops.specs.Numbers.{parsed_ops_numbered};
ghost use Rattle.ops.specs.Ops.{ReadsOps, trimmed_line, trimmed_place};
ghost use Rattle.ops.specs.Code.Numbered.{line_numbered};
ghost use Rattle.ops.specs.Code.Passes.{NoneRefused, PassOver};

use lines::{Line, Lines};
use operation::OpsError;
use operation::line::{LineRead, line_read_at};

// Reads the operations of a text, one to a line, into the start of both buffers. It refuses with 27 to 33 of document 01, as they are met
// line by line, and then leaves both buffers unchanged; a success leaves unchanged what lies behind the operations. The text is read
// twice: first for the answer, then, unless that is a refusal, to write.
pub fn parse_ops(text: &[u8], kinds: &mut [u8], operands: &mut [u64]) -> Result<usize, OpsError>
    ensures { ReadsOps text.now kinds.old operands.old kinds.new
        operands.new result }
{
    if !utf8::is_utf8(text) {
        return Err(OpsError::NotUtf8);
    }
    pass(text, kinds, operands, false)?;
    pass(text, kinds, operands, true)
}

// The trimmed text of a line by its number from 1, as a part of the caller's text. It refuses nothing: the part is empty where the text
// isn't UTF-8 or has no such line.
pub fn trimmed_line<'a>(text: &'a [u8], line: usize) -> &'a [u8]
    ensures { Part text.entry result (trimmed_place text.now line) (trimmed_line text.now line) }
{
    match nth_line(text, line) {
        Some(l) => trim::trim(&text[l.text.start..l.text.end]),
        None => &text[..0],
    }
}

// Where the line of a number from 1 stands.
pub fn nth_line(text: &[u8], line: usize) -> Option<Line>
    ensures { result ≡ line_numbered text.now line }
{
    if line == 0 || !utf8::is_utf8(text) {
        return None;
    }
    Lines { text, at: 0 }.nth(line - 1)
}

// One pass over a text that is UTF-8. It gives the answer, and writes the operations only where it is told to. Two functions are two copies
// of the line reader (docs/DECISIONS.md); a closure that writes is no plainer, as its steps alone would say what the buffers hold.
fn pass(
    text: &[u8],
    kinds: &mut [u8],
    operands: &mut [u64],
    writing: bool,
) -> Result<usize, OpsError>
    requires { writing ≡ true → NoneRefused from_str text.now kinds.old operands.old }
    ensures { PassOver from_str text.now kinds.old operands.old kinds.new
        operands.new writing result }
{
    let room = kinds.len().min(operands.len());
    let mut at: usize = 0;
    let mut line: usize = 0;
    let mut n: usize = 0;
    // An iterator over `line_read_at` would be a type and an impl of its own for this loop alone, and no plainer.
    while at < text.len() {
        line += 1;
        let reached = line_read_at(text, at, line);
        at = reached.next;
        match reached.read {
            LineRead::Skip => {}
            LineRead::Op { kind, operand } => {
                if n == room {
                    return Err(OpsError::Full { line });
                }
                if writing {
                    kinds[n] = kind;
                    operands[n] = operand;
                }
                n += 1;
            }
            LineRead::Bad(e) => return Err(e),
        }
    }
    if n == 0 {
        return Err(OpsError::Empty);
    }
    Ok(n)
}
