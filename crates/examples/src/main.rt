// Makes the calls of document 01's bench examples and prints what they give, a line for each part: the example's name, the
// number of the answer, the values that go with it, and then, where the example speaks of a buffer, its first entries.
// E1's text follows its line.
#![tactic(auto)]

mod assemblies;
mod gate;
mod in_row;
mod line;
mod readings;
mod run;
mod runs;

use std::io;

fn main(rt: HostRuntime) -> io::Result<()> {
    e1(&rt)?;
    e2_to_e4(&rt)?;
    e5(&rt)?;
    e6(&rt)?;
    e7_and_e8(&rt)?;
    line::print(&rt, "E9", assemblies::precedence(), 4, &[])?;
    line::print(&rt, "E9", assemblies::left_to_right(), 4, &[])?;
    line::print(&rt, "E10", gate::letters(), 0, &[])
}

// The assembly with its text, a run of it, and all calls in a row.
fn e1(rt: &impl Print) -> io::Result<()> {
    let mut out = [0; 4096];
    let assembled = assemblies::tally(&mut out);
    line::print(rt, "E1", assembled, 4, &[])?;
    rt.write_all(&out[..67])?;
    let mut stack = [0; 4096];
    let ran = runs::tally(&mut stack);
    line::print(rt, "E1", ran, 4, &stack[..1])?;
    let mut stack = [0; 4096];
    let compiled = in_row::tally(&mut stack);
    line::print(rt, "E1", compiled, 4, &stack[..1])
}

fn e2_to_e4(rt: &impl Print) -> io::Result<()> {
    line::print(rt, "E2", runs::tally_short(), 2, &[])?;
    line::print(rt, "E3", runs::div_price(), 2, &[])?;
    line::print(rt, "E3", runs::div_items(), 0, &[])?;
    line::print(rt, "E4", runs::halt(), 4, &[])
}

fn e5(rt: &impl Print) -> io::Result<()> {
    let mut stack = [0; 4096];
    let ran = runs::lone_push(&mut stack);
    line::print(rt, "E5", ran, 4, &stack[..1])?;
    line::print(rt, "E5", runs::lone_jump(), 0, &[])
}

fn e6(rt: &impl Print) -> io::Result<()> {
    let mut storage = [7; 4];
    let stored = runs::store_3(&mut storage);
    line::print(rt, "E6", stored, 4, &storage)?;
    line::print(rt, "E6", runs::store_4(), 0, &[])?;
    line::print(rt, "E6", runs::store_65535(), 0, &[])?;
    line::print(rt, "E6", runs::store_65536(), 1, &[])
}

// Of the first its kind and its operand.
fn e7_and_e8(rt: &impl Print) -> io::Result<()> {
    let mut kinds = [9; 4096];
    let mut operands = [0; 4096];
    let read = readings::push_plus(&mut kinds, &mut operands);
    line::print(rt, "E7", read, 1, &[u64::from(kinds[0]), operands[0]])?;
    line::print(rt, "E7", readings::push_minus(), 3, &[])?;
    line::print(rt, "E8", readings::push_alone(), 3, &[])
}
