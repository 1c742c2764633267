// The calls that take one or two texts, or two numbers.
use crate::answer::Told;
use crate::call::TextCall;
use crate::case::Case;
use crate::hex::Hex;
use crate::{function, gate};
use lines::{Line, Lines};
use numbered::Answer;
use std::fmt::Display;
use std::io;

// Longer texts are cut off here; the calls of the assembler take longer ones.
pub const LONGEST: usize = 1024;

pub fn replay(rt: &impl Print, call: TextCall, case: Case) -> io::Result<()> {
    let mut text = [0; LONGEST];
    let text = case.text(2, &mut text);
    match call {
        TextCall::IsUtf8 => rt.print(u8::from(utf8::is_utf8(text))),
        TextCall::Trim => rt.print(Hex(trim::trim(text))),
        TextCall::TrimStart => rt.print(Hex(trim::trim_start(text))),
        TextCall::TrimEnd => rt.print(Hex(trim::trim_end(text))),
        TextCall::Lines => lines(rt, text),
        TextCall::FromStr => or_dash(rt, decimal::from_str(text)),
        TextCall::Rewritten => rewritten(rt, text),
        TextCall::Digits => digits(rt, text),
        TextCall::Find => found(rt, text, case),
        TextCall::FindByte => found_byte(rt, text, case),
        TextCall::WrappingMul => rt.print(word::wrapping_mul(case.number(2), case.number(3))),
        TextCall::FindFunction => function::print(rt, text),
        TextCall::JsonU64ForKey => json_u64_for_key(rt, text, case),
        TextCall::ExecutionGate => {
            rt.print(Told(context::execution_gate(gate::of_texts(text)).numbered()))
        }
    }
}

fn lines(rt: &impl Print, text: &[u8]) -> io::Result<()> {
    for Line { text, next } in (Lines { text, at: 0 }) {
        print!(rt; " {} {} {next}", text.start, text.end)?;
    }
    Ok(())
}

fn or_dash<T: Display + Drop>(rt: &impl Print, value: Option<T>) -> io::Result<()> {
    match value {
        Some(value) => rt.print(value),
        None => rt.write_all(b"-"),
    }
}

// The number that a text writes, written again.
fn rewritten(rt: &impl Print, s: &[u8]) -> io::Result<()> {
    let Some(n) = decimal::from_str(s) else {
        return Ok(());
    };
    let mut out = [0; 20];
    let Some(end) = decimal::write_decimal(n, &mut out, 0) else {
        return Ok(());
    };
    rt.write_all(&out[..end.min(20)])
}

fn digits(rt: &impl Print, s: &[u8]) -> io::Result<()> {
    let run = decimal::digits_at(s, 0);
    match run.value {
        Some(n) => print!(rt; "{} {n}", run.len),
        None => print!(rt; "{} +", run.len),
    }
}

fn found(rt: &impl Print, s: &[u8], case: Case) -> io::Result<()> {
    let mut sought = [0; LONGEST];
    or_dash(rt, search::find(s, case.text(3, &mut sought), 0))
}

fn found_byte(rt: &impl Print, s: &[u8], case: Case) -> io::Result<()> {
    let mut sought = [0; LONGEST];
    match case.text(3, &mut sought).first() {
        Some(b) => or_dash(rt, search::find_byte(s, *b, 0)),
        None => Ok(()),
    }
}

fn json_u64_for_key(rt: &impl Print, vector: &[u8], case: Case) -> io::Result<()> {
    let mut key = [0; LONGEST];
    let answer = source::vector::json_u64_for_key(vector, case.text(3, &mut key));
    rt.print(Told(answer.numbered()))
}
