// Assembles the contract and the vector in the two files that its arguments name. The ops text goes to standard
// output; a refusal, and a file that can't be read, are named on standard error. The exit status is 1 where a read or a write fails.
#![tactic(auto)]

mod message;
mod report;
mod say;

use std::env::{Env, FillError};
use std::io::Write;
use std::process::ExitCode;
use std::rt::Files;

// The paths stand in fixed buffers: `env::args` refuses an argument that isn't UTF-8, which is named on standard error here.
fn main(rt: HostRuntime) -> ExitCode {
    if !two_given(&rt) {
        return report::usage(&mut rt.stderr());
    }
    let mut contract_path = [0u8; 4096];
    let contract_len = files::argument(&rt, 1, &mut contract_path);
    let mut vector_path = [0u8; 4096];
    let vector_len = files::argument(&rt, 2, &mut vector_path);
    read(
        &rt,
        &mut rt.stdout(),
        &mut rt.stderr(),
        &contract_path[..contract_len],
        &vector_path[..vector_len],
    )
}

// Whether there are two arguments behind the program's name.
fn two_given(rt: &impl Env) -> bool {
    is_given(rt, 2) && !is_given(rt, 3)
}

fn is_given(rt: &impl Env, i: usize) -> bool {
    match rt.arg(i, &mut []) {
        Ok(_) | Err(FillError::TooLong) => true,
        Err(FillError::NotPresent) => false,
    }
}

// Each file is read up to one byte more than a contract or a vector may have, so the buffers are fixed. Contract, vector and stem stay
// three slices: each has a bound and a refusal of its own.
fn read(
    rt: &impl Files,
    stdout: &mut impl Write,
    stderr: &mut (impl Write + Eprint),
    contract_path: &[u8],
    vector_path: &[u8],
) -> ExitCode {
    let mut contract = [0u8; 65537];
    let mut vector = [0u8; 65537];
    let Ok(n) = files::read(rt, contract_path, &mut contract) else {
        return report::unreadable(stderr, contract_path);
    };
    let Ok(m) = files::read(rt, vector_path, &mut vector) else {
        return report::unreadable(stderr, vector_path);
    };
    assemble(
        stdout,
        stderr,
        &contract[..n],
        &vector[..m],
        path::file_stem(contract_path),
    )
}

// The buffer is longer than any ops text that is assembled.
fn assemble(
    stdout: &mut impl Write,
    stderr: &mut (impl Write + Eprint),
    contract: &[u8],
    vector: &[u8],
    stem: &[u8],
) -> ExitCode {
    let mut out = [0u8; 1048576];
    assemble_into(stdout, stderr, contract, vector, stem, &mut out)
}

fn assemble_into(
    stdout: &mut impl Write,
    stderr: &mut (impl Write + Eprint),
    contract: &[u8],
    vector: &[u8],
    stem: &[u8],
    out: &mut [u8],
) -> ExitCode {
    match say::say(contract, vector, stem, out) {
        Ok(n) => report::text(stdout, stderr, &out[..n]),
        Err(why) => report::refused(stderr, why),
    }
}
