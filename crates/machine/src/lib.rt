// The machine: its registers, its prices and what each operation does.
#![tactic(auto)]

pub mod operations;
pub mod price;
pub mod registers;

// Why a run is refused: refusals 46 to 51 of document 01, with what each carries.
#[derive(Clone, Copy, Debug, PartialEq, Eq)]
pub enum Refusal {
    OutOfGas { price: u64, left: u64 },
    StackUnderflow,
    StackLimitExceeded,
    DivisionByZero,
    StorageLimitExceeded(u64),
    OutsideStorage,
}

// Three states, each with a name: an Option of a Result is no plainer.
#[derive(Clone, Copy, Debug, PartialEq, Eq)]
pub enum Status {
    Going,
    Ended,
    Refused(Refusal),
}

#[derive(Clone, Copy)]
pub struct Regs {
    pub pos: usize,
    pub gas: u64,
    pub items: usize,
    pub used: usize,
    pub ops: u64,
    pub status: Status,
}
