// What the assembler reads first: the contract's function, its parameters, and the vector's numbers.
#![tactic(auto)]

pub mod function;
pub mod parameters;
pub mod vector;
