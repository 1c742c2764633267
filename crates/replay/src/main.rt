// Replays answers of the original, and document 01's and 02's own where the original can't be asked. A case is a line of standard input:
// who answers (`o` the original, `d` document 01 or 02), the call's letter, and the call's arguments, with a space between them. A text
// is in hexadecimal; eight texts have the byte FF between them. A list of numbers has a comma between them, and `n*v` is n times v.
// `-` is an empty text or list. What the call gives is written on a line of its own: document 01's number and the values carried,
// up to the last that isn't 0; then, each behind a bar, what is left in the buffers, in the same forms.
//   u is_utf8, t trim, s trim_start, e trim_end, l lines, n u64::from_str, w the same and written again, d digits: text
//   f find, b find_byte: text, what is sought; m wrapping_mul: two numbers
//   F find_function: contract; V json_u64_for_key: vector, key; G execution_gate: eight texts
//   O parse_ops, and trimmed_line of the lines 0 to 3: lengths of the lent kinds and operands, text
//   A assemble: contract, vector, stem
//   C verify: kinds, operands, used length
//   R run_with_gas: as verify, then caller, gas limit, lengths of the lent stack and work buffers, storage
//   T execute_state_transition_with_gas, S execute_state_transition: as run_with_gas, then eight texts
#![tactic(auto)]

mod answer;
mod assembly;
mod call;
mod case;
mod function;
mod gate;
mod hex;
mod list;
mod parts;
mod reader;
mod runs;
mod text;

ghost use Rattle.std.specs.Prelude.{◌≤◌, length, IfOk};
ghost use Rattle.std.specs.Io.{ReadsAtMost};

use call::Call;
use case::Case;
use std::io::{self, Read};

// A line that is longer with its line feed ends the run.
const LONGEST: usize = 262144;

fn main(rt: HostRuntime) -> io::Result<()> {
    let mut buffer = [0; LONGEST];
    replay_all(&rt, &mut rt.stdin(), &mut buffer)
}

// The buffer holds the start of a line that isn't whole yet; more is read behind it, 65,536 times at most. A last line that no line feed
// ends is no case.
fn replay_all(
    rt: &(impl Print + AllocGlobal),
    input: &mut impl Read,
    buffer: &mut [u8],
) -> io::Result<()> {
    let mut held = 0;
    for _ in 0..65536 {
        let n = more(input, buffer, held)?;
        let done = replay_lines(rt, &buffer[..n])?;
        if done == 0 {
            break;
        }
        buffer.copy_within(done..n, 0);
        held = n - done;
    }
    Ok(())
}

// Reads behind what is held; how many bytes the buffer holds then.
fn more(input: &mut impl Read, buffer: &mut [u8], held: usize) -> io::Result<usize>
    requires { held ≤ length buffer.old }
    ensures { ReadsAtMost result buffer.new }
{
    let mut done = held;
    while done < buffer.len() {
        let n = input.read(&mut buffer[done..])?;
        if n == 0 {
            break;
        }
        done += n;
    }
    Ok(done)
}

// Replays the whole lines of a text; how many bytes they are.
fn replay_lines(rt: &(impl Print + AllocGlobal), text: &[u8]) -> io::Result<usize>
    ensures { IfOk result (λ n. n ≤ length text.now) }
{
    let mut at = 0;
    while let Some(end) = search::find_byte(text, b'\n', at) {
        replay(rt, Case(&text[at..end]))?;
        at = end + 1;
    }
    Ok(at)
}

// A letter that names no call gives an empty line.
fn replay(rt: &(impl Print + AllocGlobal), case: Case) -> io::Result<()> {
    if let Some(Ok(call)) = case.letter().map(|letter| Call::try_from(letter)) {
        match call {
            Call::Text(call) => text::replay(rt, call, case)?,
            Call::ParseOps => reader::replay(rt, case)?,
            Call::Assemble => assembly::replay(rt, case)?,
            Call::Verify => runs::verify(rt, case)?,
            Call::Run(call) => runs::run(rt, call, case)?,
        }
    }
    rt.write_all(b"\n")
}

// The number that a text writes, or 0 where it writes none.
fn number(text: &[u8]) -> u64 {
    decimal::from_str(text).unwrap_or(0)
}
