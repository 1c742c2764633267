// Calls each function of atc_vm by position, with arguments that tell its parameters apart, and prints what it gives, a line for
// each call: the number and the eight words of the answer, and then entries of the buffers. The assembled text follows its line.
#![tactic(auto)]

mod programs;
mod show;
mod texts;

use std::io;

fn main(rt: HostRuntime) -> io::Result<()> {
    texts::assemble(&rt)?;
    texts::parse_ops(&rt)?;
    texts::trimmed_line(&rt)?;
    gates(&rt)?;
    programs::verify(&rt)?;
    programs::run_with_gas(&rt)?;
    programs::transition_with_gas(&rt)?;
    programs::transition(&rt)
}

// Passed; then with a genesis id, and with a computed one, that is no 64 hex digits.
fn gates(rt: &impl Print) -> io::Result<()> {
    let genesis = [b'A'; 64];
    let passed = gate(&genesis, &genesis);
    let no_genesis = gate(b"x", &genesis);
    let other_genesis = gate(&genesis, b"x");
    println!(rt; "gate {passed} {no_genesis} {other_genesis}")
}

fn gate(genesis_id: &[u8], computed_genesis_id: &[u8]) -> u64 {
    atc_vm::atc_execution_gate(
        b"atc",
        b"devnet",
        genesis_id,
        b"1",
        b"2",
        computed_genesis_id,
        b"1",
        b"2",
    )
}
