// The run behind its tests: it works in the work buffer on those of the used slots that it needs, and the storage is written
// once, when the run has succeeded.
#![tactic(auto)]

ghost use Rattle.std.specs.Prelude.{◌≡◌, ◌≤◌, length, replicate};
ghost use Rattle.machine.specs.Machine.{Progress};
ghost use Rattle.machine.specs.Code.Alike.{AlikeBut};
ghost use Rattle.machine.specs.declared.Status.TheVariants.{Going, Ended};
ghost use Rattle.machine.specs.Code.Registers.{progress_of, fault_of, over_of, Bounds};
ghost use Rattle.perform.specs.Call.{call_of};
ghost use Rattle.perform.specs.Numbers.{success_numbered};
ghost use Rattle.perform.specs.Run.{Meets, performed, of_run, refusal_of};
ghost use Rattle.perform.specs.Lent.{Lent};
ghost use Rattle.perform.specs.Code.Needed.{Serves};

mod buffers;
mod slots;

use checks::VmError;
use kinds::Program;
use machine::{Refusal, Regs, Status};
use numbered::{Answer, Numbered, carrying};

// The part of a state that is no buffer.
#[derive(Clone, Copy, Debug, PartialEq, Eq)]
pub struct State {
    pub used: usize,
}

// What a call runs. The lent `&mut` buffers are no part of it: in a struct that holds several, each contract would have to name
// what each held at entry.
#[derive(Clone, Copy)]
pub struct Run<'a> {
    pub program: Program<'a>,
    pub caller: u64,
    pub gas_limit: u64,
    pub state: State,
}

#[derive(Clone, Copy, Debug, PartialEq, Eq)]
pub struct Success {
    pub gas_spent: u64,
    pub operations: u64,
    pub items: usize,
    pub state: State,
}

impl Answer for Success {
    ghost numbered_as = { success_numbered };

    fn numbered(self) -> Numbered {
        carrying(
            0,
            [
                self.gas_spent,
                self.operations,
                self.items as u64,
                self.state.used as u64,
            ],
        )
    }
}

impl<'a> Run<'a> {
    // The calls of crate `vm` come here behind their test of lengths (34) and the verifier.
    pub fn perform(
        self,
        stack: &mut [u64],
        work: &mut [u64],
        storage: &mut [u64],
    ) -> Result<Success, VmError>
        requires { Lent (call_of self stack.old work.old storage.old) }
        ensures { Meets (performed (call_of self.entry stack.old work.old storage.old))
            self.entry.state result stack.new work.new storage.new }
    {
        let used = self.state.used;
        slots::copy_needed(work, storage, self.program, used);
        let r = metered::run(
            self.program,
            self.caller,
            stack,
            work,
            start(self.gas_limit, used),
        );
        finish(self, r, stack, work, storage)
    }
}

// The registers before the first operation.
fn start(gas_limit: u64, used: usize) -> Regs
    ensures { result ≡ record { pos = 0; gas = gas_limit; items = 0; used = used; ops = 0; status = Going } }
{
    Regs {
        pos: 0,
        gas: gas_limit,
        items: 0,
        used,
        ops: 0,
        status: Status::Going,
    }
}

// The answer of a run that is over, and what it leaves in the buffers. `Lent` speaks of the `&mut` buffers too, so no struct holds it.
fn finish(
    run: Run,
    r: Regs,
    stack: &mut [u64],
    work: &mut [u64],
    storage: &mut [u64],
) -> Result<Success, VmError>
    requires lent { Lent (call_of run stack.old work.old storage.old) }
    requires bounds { Bounds (length work.old) r × (1 ≤ over_of r.status) × (r.gas ≤ run.gas_limit) }
    ensures { (o : Progress) → AlikeBut
        (Serves run.entry.program.kinds.now run.entry.program.operands.now run.entry.state.used storage.old)
        (progress_of stack.old work.old r) o
        → Meets (of_run (call_of run.entry stack.old work.old storage.old) o)
        run.entry.state result stack.new work.new storage.new }
{
    match r.status {
        Status::Refused(why) => undo(why, stack, work),
        _ => keep(run, r, stack, work, storage),
    }
}

// After a refusal stack and work are zero over their whole lengths.
fn undo(why: Refusal, stack: &mut [u64], work: &mut [u64]) -> Result<Success, VmError>
    ensures answer { result ≡ Err (refusal_of (fault_of why)) }
    ensures stack { stack.new ≡ replicate (length stack.old) 0 }
    ensures work { work.new ≡ replicate (length work.old) 0 }
{
    stack.fill(0);
    work.fill(0);
    Err(refusal_of(why))
}

// After a success the slots that the run may have changed are brought back into the storage.
fn keep(
    run: Run,
    r: Regs,
    stack: &mut [u64],
    work: &mut [u64],
    storage: &mut [u64],
) -> Result<Success, VmError>
    requires lent { Lent (call_of run stack.old work.old storage.old) }
    requires bounds { Bounds (length work.old) r × (r.status ≡ Ended) × (r.gas ≤ run.gas_limit) }
    ensures { (o : Progress) → AlikeBut
        (Serves run.entry.program.kinds.now run.entry.program.operands.now run.entry.state.used storage.old)
        (progress_of stack.old work.old r) o
        → Meets (of_run (call_of run.entry stack.old work.old storage.old) o)
        run.entry.state result stack.new work.new storage.new }
{
    let items = r.items;
    let used = r.used;
    buffers::clear_from(stack, items);
    let before = run.state.used;
    slots::copy_changed(storage, work, run.program, before);
    buffers::copy_part(storage, work, before, used.max(before));
    work.fill(0);
    Ok(Success {
        gas_spent: run.gas_limit - r.gas,
        operations: r.ops,
        items,
        state: State { used },
    })
}

// The machine's refusal as the call's. Neither enum's crate knows the other, so no `From` can stand beside one of them.
fn refusal_of(why: Refusal) -> VmError
    ensures { result ≡ refusal_of (fault_of why) }
{
    match why {
        Refusal::OutOfGas { price, left } => VmError::OutOfGas { price, left },
        Refusal::StackUnderflow => VmError::StackUnderflow,
        Refusal::StackLimitExceeded => VmError::StackLimitExceeded,
        Refusal::DivisionByZero => VmError::DivisionByZero,
        Refusal::StorageLimitExceeded(slots) => VmError::StorageLimitExceeded(slots),
        Refusal::OutsideStorage => VmError::OutsideStorage,
    }
}
