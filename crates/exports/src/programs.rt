// The calls on a program: Caller, Store 1, Load 0, Load 3, Halt; two of four slots are used.
use crate::show::Numbers;
use std::io;

const KINDS: [u8; 5] = [13, 12, 11, 11, 15];

const OPERANDS: [u64; 5] = [0, 1, 0, 3, 0];

const GENESIS: [u8; 64] = [b'A'; 64];

// What a run is lent.
#[derive(Clone, Copy)]
struct Lent {
    stack: [u64; 4096],
    work: [u64; 4],
    storage: [u64; 4],
    answer: [u64; 8],
}

impl Lent {
    fn new() -> Lent {
        Lent {
            stack: [20; 4096],
            work: [21; 4],
            storage: [22, 23, 24, 25],
            answer: [9; 8],
        }
    }

    // The number is what C's call returns. Of the stack two items and the last entry.
    fn print(&self, rt: &impl Print, call: &str, number: u64) -> io::Result<()> {
        print!(rt; "{call} {number}{}", Numbers(&self.answer))?;
        print!(rt; " |{} {}", Numbers(&self.stack[..2]), self.stack[4095])?;
        println!(rt; " |{} |{}", Numbers(&self.work), Numbers(&self.storage))
    }
}

pub fn verify(rt: &impl Print) -> io::Result<()> {
    let mut answer = [9; 8];
    let number = atc_vm::atc_verify(&KINDS, &OPERANDS, 65537, &mut answer);
    println!(rt; "verify {number}{}", Numbers(&answer))
}

pub fn run_with_gas(rt: &impl Print) -> io::Result<()> {
    let mut lent = Lent::new();
    let number = atc_vm::atc_run_with_gas(
        &KINDS,
        &OPERANDS,
        7,
        1000,
        &mut lent.stack,
        &mut lent.work,
        &mut lent.storage,
        2,
        &mut lent.answer,
    );
    lent.print(rt, "run_with_gas", number)
}

pub fn transition_with_gas(rt: &impl Print) -> io::Result<()> {
    let mut lent = Lent::new();
    let number = atc_vm::atc_execute_state_transition_with_gas(
        b"atc",
        b"devnet",
        &GENESIS,
        b"1",
        b"2",
        &GENESIS,
        b"1",
        b"2",
        &KINDS,
        &OPERANDS,
        7,
        1000,
        &mut lent.stack,
        &mut lent.work,
        &mut lent.storage,
        2,
        &mut lent.answer,
    );
    lent.print(rt, "transition_with_gas", number)
}

// Without gas the first operation is refused, and Halt alone is not.
pub fn transition(rt: &impl Print) -> io::Result<()> {
    limitless(rt, &KINDS, &OPERANDS)?;
    limitless(rt, &[15], &[0])
}

fn limitless(rt: &impl Print, kinds: &[u8], operands: &[u64]) -> io::Result<()> {
    let mut lent = Lent::new();
    let number = atc_vm::atc_execute_state_transition(
        b"atc",
        b"devnet",
        &GENESIS,
        b"1",
        b"2",
        &GENESIS,
        b"1",
        b"2",
        kinds,
        operands,
        7,
        &mut lent.stack,
        &mut lent.work,
        &mut lent.storage,
        2,
        &mut lent.answer,
    );
    lent.print(rt, "transition", number)
}
