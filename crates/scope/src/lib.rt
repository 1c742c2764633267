// The scope of an assembly: the bindings made so far and the last return; the parameters are bound.
#![tactic(auto)]

pub mod parameters;
pub mod refusal;
pub mod state;
pub mod table;
