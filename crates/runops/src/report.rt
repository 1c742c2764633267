// What the program prints of a text: document 01's two lines, the names, then the values.
ghost use Rattle.std.specs.Prelude.{◌≤◌, ◌≡◌, length, Some};
ghost use Rattle.runops.specs.Report.{refused_with, top_of, run_report, report_of, printed};

use kinds::Program;
use numbered::Answer;
use perform::{Run, State};
use std::fmt;

// Numbers, as they are printed: on refusal all but the first are 0.
#[derive(Clone, Copy, Debug, PartialEq, Eq)]
pub struct Report {
    pub refusal: u64,
    pub gas_spent: u64,
    pub operations: u64,
    pub items: u64,
    pub top: u64,
    pub slots: u64,
}

impl fmt::Display for Report {
    ghost output = { λ report. Some (printed report) };

    fn fmt<W: fmt::Write>(&self, f: &mut fmt::Formatter<W>) -> fmt::Result {
        let Report {
            refusal,
            gas_spent,
            operations,
            items,
            top,
            slots,
        } = *self;
        writeln!(f, "refusal gas_spent operations items top slots")?;
        writeln!(
            f,
            "{refusal} {gas_spent} {operations} {items} {top} {slots}"
        )
    }
}

pub fn of_text(text: &[u8]) -> Report
    ensures { result ≡ report_of text.now }
{
    if text.len() > 65536 {
        return refused(27);
    }
    let mut kinds = [0; 4096];
    let mut operands = [0; 4096];
    match ops::parse_ops(text, &mut kinds, &mut operands) {
        Ok(n) => of_run(Program {
            kinds: &kinds[..n],
            operands: &operands[..n],
        }),
        Err(e) => refused(e.numbered().number),
    }
}

fn of_run(program: Program) -> Report
    ensures { result ≡ run_report program.entry.kinds.now program.entry.operands.now }
{
    let mut stack = [0; 4096];
    let mut work = [0; 4096];
    let mut storage = [0; 4096];
    let run = Run {
        program,
        caller: 7,
        gas_limit: 1000,
        state: State { used: 0 },
    };
    match vm::run_with_gas(run, &mut stack, &mut work, &mut storage) {
        Ok(success) => Report {
            refusal: 0,
            gas_spent: success.gas_spent,
            operations: success.operations,
            items: success.items as u64,
            top: top(&stack, success.items),
            slots: success.state.used as u64,
        },
        Err(f) => refused(f.numbered().number),
    }
}

// The report prints document 01's number, so it is handed as one: 27 stands for a text that is never read.
fn refused(number: u64) -> Report
    ensures { result ≡ refused_with number }
{
    Report {
        refusal: number,
        gas_spent: 0,
        operations: 0,
        items: 0,
        top: 0,
        slots: 0,
    }
}

// The last of the items, or 0 where there is none.
fn top(stack: &[u64], items: usize) -> u64
    requires { items ≤ length stack.now }
    ensures { result ≡ top_of stack.now items }
{
    stack[..items].last().copied().unwrap_or(0)
}
