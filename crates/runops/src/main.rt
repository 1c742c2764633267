// Reads ops text from standard input, makes a metered run of it, and writes what the run gives. A read or a write that fails is
// named on standard error, and the exit status is 1.
#![tactic(auto)]

mod report;

use report::Report;
use std::process::ExitCode;

// One byte more is read than a text may have.
fn main(rt: HostRuntime) -> ExitCode {
    let mut text = [0; 65537];
    match files::fill(&mut rt.stdin(), &mut text) {
        Ok(n) => print(&rt, report::of_text(&text[..n])),
        Err(_) => unreadable(&rt),
    }
}

// A write that fails is named on standard error.
fn print(rt: &(impl Print + Eprint), report: Report) -> ExitCode {
    if let Err(e) = rt.print(report) {
        let _ = eprintln!(rt; "runops: standard output: {e}");
        return ExitCode::FAILURE;
    }
    ExitCode::SUCCESS
}

fn unreadable(rt: &impl Eprint) -> ExitCode {
    let _ = rt.eprintln("runops: can't read standard input");
    ExitCode::FAILURE
}
