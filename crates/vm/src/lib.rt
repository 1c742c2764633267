// A state transition: the lent buffers' lengths, the chain gate, the verifier, the metered run.
#![tactic(auto)]

ghost use Rattle.std.specs.Prelude.{◌≡◌};
ghost use Rattle.context.specs.Gate.{gate_at};
ghost use Rattle.perform.specs.Call.{call_of};
ghost use Rattle.perform.specs.Lent.{Lent};
ghost use Rattle.perform.specs.Run.{Meets};
ghost use Rattle.vm.specs.Transition.{lengths_check, metered_of, transition_of};
ghost use Rattle.vm.specs.Code.Verified.{verified};

use checks::VmError;
use context::Gate;
use kinds::Program;
use perform::{Run, State, Success};

// Runs a program under a gas limit, on the used slots of the storage and without the chain gate. It refuses with 34, then 41 to 45 of
// document 01, and leaves every buffer unchanged; or with 46 to 51 from the run itself, and leaves the storage as it was, and the stack
// and work buffers zero. A success leaves the items in the stack buffer, bottom first, with zeros behind them; the work buffer zero; the
// used slots as the run made them, and the rest of the storage unchanged.
pub fn run_with_gas(
    run: Run,
    stack: &mut [u64],
    work: &mut [u64],
    storage: &mut [u64],
) -> Result<Success, VmError>
    ensures { Meets (metered_of (call_of run.entry stack.old work.old storage.old))
        run.entry.state result stack.new work.new storage.new }
{
    check_lengths(run, stack, work, storage)?;
    verified_run(run, stack, work, storage)
}

// Runs a program under a gas limit behind the chain gate. It refuses with 34, then 35 to 40 (the gate), then as `run_with_gas` does, and
// leaves what that leaves.
pub fn execute_state_transition_with_gas(
    gate: Gate,
    run: Run,
    stack: &mut [u64],
    work: &mut [u64],
    storage: &mut [u64],
) -> Result<Success, VmError>
    ensures { Meets (transition_of (gate_at gate.entry) (call_of run.entry stack.old work.old storage.old))
        run.entry.state result stack.new work.new storage.new }
{
    check_lengths(run, stack, work, storage)?;
    context::execution_gate(gate)?;
    verified_run(run, stack, work, storage)
}

// The same under the limit 0, as the Rust has it.
pub fn execute_state_transition(
    gate: Gate,
    program: Program,
    caller: u64,
    state: State,
    stack: &mut [u64],
    work: &mut [u64],
    storage: &mut [u64],
) -> Result<Success, VmError>
    ensures { Meets (transition_of (gate_at gate.entry)
        (call_of (record { program = program.entry; caller = caller; gas_limit = 0; state = state }) stack.old work.old storage.old))
        state result stack.new work.new storage.new }
{
    let run = Run {
        program,
        caller,
        gas_limit: 0,
        state,
    };
    execute_state_transition_with_gas(gate, run, stack, work, storage)
}

// 34, of all that is lent.
fn check_lengths(run: Run, stack: &[u64], work: &[u64], storage: &[u64]) -> Result<(), VmError>
    ensures { result ≡ lengths_check (call_of run.entry stack.now work.now storage.now) }
{
    let fit = checks::buffers_fit(
        run.program.kinds.len(),
        run.program.operands.len(),
        stack.len(),
        work.len(),
        storage.len(),
        run.state.used,
    );
    if fit {
        Ok(())
    } else {
        Err(VmError::BufferLengths)
    }
}

// `run_with_gas` and the transition come here behind their test of lengths (34).
fn verified_run(
    run: Run,
    stack: &mut [u64],
    work: &mut [u64],
    storage: &mut [u64],
) -> Result<Success, VmError>
    requires { Lent (call_of run stack.old work.old storage.old) }
    ensures { Meets (verified (call_of run.entry stack.old work.old storage.old))
        run.entry.state result stack.new work.new storage.new }
{
    checks::verify(run.program, run.state.used)?;
    run.perform(stack, work, storage)
}
