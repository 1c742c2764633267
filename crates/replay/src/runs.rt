// The verifier, the machine and the transitions. The lent stack and work buffers hold 9 before the call.
use crate::answer::Told;
use crate::call::RunCall;
use crate::case::Case;
use crate::list::List;
use crate::{gate, text};
use checks::VmError;
use kinds::Program;
use numbered::Answer;
use perform::{Run, State, Success};
use std::io;

pub fn verify(rt: &(impl Print + AllocGlobal), case: Case) -> io::Result<()> {
    let kinds = case.bytes(rt.alloc(), 2)?;
    let operands = case.numbers(rt.alloc(), 3)?;
    let program = Program {
        kinds: &kinds,
        operands: &operands,
    };
    rt.print(Told(checks::verify(program, case.number(4) as usize).numbered()))
}

// What is written of the original is what it has after the call: the items and the used slots. Document 01 says it of all three buffers
// whole. It is no part of its caller's code: there its arrays would be a part of every case's frame.
#[inline(never)]
pub fn run(rt: &(impl Print + AllocGlobal), call: RunCall, case: Case) -> io::Result<()> {
    let kinds = case.bytes(rt.alloc(), 2)?;
    let operands = case.numbers(rt.alloc(), 3)?;
    let mut stack = [9; 4100];
    let mut work = [9; 65540];
    let mut storage = case.numbers(rt.alloc(), 9)?;
    let mut texts = [0; text::LONGEST];
    let texts = case.text(10, &mut texts);
    let run = Run {
        program: Program {
            kinds: &kinds,
            operands: &operands,
        },
        caller: case.number(5),
        gas_limit: case.number(6),
        state: State {
            used: case.number(4) as usize,
        },
    };
    let stack = &mut stack[..case.length(7, 4100)];
    let work = &mut work[..case.length(8, 65540)];
    let answer = called(call, run, texts, stack, work, &mut storage);
    rt.print(Told(answer.numbered()))?;
    if case.is_of_document() {
        return print!(rt; " | {} | {} | {}", List(stack), List(&storage), List(work));
    }
    let (items, used) = match answer {
        Ok(success) => (success.items, success.state.used),
        Err(_) => (0, run.state.used),
    };
    let items = stack.get(..items).unwrap_or(stack);
    let used = storage.get(..used).unwrap_or(&storage);
    print!(rt; " | {} | {}", List(items), List(used))
}

fn called(
    call: RunCall,
    run: Run,
    texts: &[u8],
    stack: &mut [u64],
    work: &mut [u64],
    storage: &mut [u64],
) -> Result<Success, VmError> {
    let gate = gate::of_texts(texts);
    match call {
        RunCall::RunWithGas => vm::run_with_gas(run, stack, work, storage),
        RunCall::ExecuteStateTransitionWithGas => {
            vm::execute_state_transition_with_gas(gate, run, stack, work, storage)
        }
        RunCall::ExecuteStateTransition => vm::execute_state_transition(
            gate,
            run.program,
            run.caller,
            run.state,
            stack,
            work,
            storage,
        ),
    }
}
