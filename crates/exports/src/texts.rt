// The calls on text.
use crate::show::Numbers;
use std::io;

pub fn assemble(rt: &impl Print) -> io::Result<()> {
    let mut out = [0; 67];
    let mut answer = [9; 8];
    let number = atc_vm::atc_assemble(
        b"fn total (a, b) {\n  let s = a + b\n  return s * 2\n}\n",
        b"{\"a\": 5, \"b\": 7, \"expected\": 24}",
        b"tally",
        &mut out,
        &mut answer,
    );
    println!(rt; "assemble {number}{}", Numbers(&answer))?;
    rt.write_all(&out)
}

pub fn parse_ops(rt: &impl Print) -> io::Result<()> {
    let mut kinds = [9; 4];
    let mut operands = [8; 4];
    let mut answer = [9; 8];
    let number = atc_vm::atc_parse_ops(
        b"# a remark\nPush 6\nStore 5\n",
        &mut kinds,
        &mut operands,
        &mut answer,
    );
    println!(rt;
        "parse_ops {number}{} |{} |{}",
        Numbers(&answer),
        Numbers(&kinds),
        Numbers(&operands)
    )
}

pub fn trimmed_line(rt: &impl Print) -> io::Result<()> {
    let mut answer = [9; 8];
    let number = atc_vm::atc_trimmed_line(b"Halt\n  Push 6 \nAdd\n", 2, &mut answer);
    println!(rt; "trimmed_line {number}{}", Numbers(&answer))
}
