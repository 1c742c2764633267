// What the program writes, and its exit status. A write to standard output that fails is named on standard error.
use crate::message::Message;
use scope::refusal::AssembleError;
use std::io::Write;
use std::process::ExitCode;

pub fn text(stdout: &mut impl Write, stderr: &mut impl Write, out: &[u8]) -> ExitCode {
    if let Err(e) = stdout.write_all(out) {
        let _ = writeln!(stderr, "assemble: standard output: {e}");
        return ExitCode::FAILURE;
    }
    ExitCode::SUCCESS
}

// As one write, so that no other program's line comes between its parts.
pub fn refused(stderr: &impl Eprint, why: AssembleError) -> ExitCode {
    let _ = stderr.eprint(Message(why));
    ExitCode::SUCCESS
}

pub fn usage(stderr: &mut impl Write) -> ExitCode {
    let _ = writeln!(stderr, "usage: assemble CONTRACT VECTOR");
    ExitCode::SUCCESS
}

// The path need not be UTF-8, so it goes byte by byte and not by `{}`.
pub fn unreadable(stderr: &mut impl Write, path: &[u8]) -> ExitCode {
    let _ = stderr.write_all(b"assemble: can't read ");
    let _ = stderr.write_all(path);
    let _ = stderr.write_all(b"\n");
    ExitCode::FAILURE
}
