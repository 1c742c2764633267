// The metered run: one operation with its price after another.
#![tactic(auto)]

ghost use Rattle.std.specs.Prelude.{length};
ghost use Rattle.kinds.specs.Code.Program.{Paired};
ghost use Rattle.machine.specs.Machine.{decode};
ghost use Rattle.machine.specs.Code.Registers.{Running, RefinesRun};

mod step;

use kinds::Program;
use machine::{Regs, Status, registers};

// Operations until the program ends or is refused, from any registers that run. Crate `vm` calls it behind its
// test of the buffers' lengths (34). Stack and work are lent and change, so no struct holds them with the caller. Free are, by
// `RefinesRun`, what lies above the items and past the used slots, and after a refusal both buffers: `vm` clears them. It is no part of its
// caller's code: inlined among the copies of slots it was slower.
#[inline(never)]
pub fn run(program: Program, caller: u64, stack: &mut [u64], work: &mut [u64], from: Regs) -> Regs
    requires paired { Paired program }
    requires running { Running from (length stack.old) (length work.old) }
    ensures { RefinesRun (decode program.entry.kinds.now program.entry.operands.now) caller from result stack.old
        work.old stack.new work.new }
{
    let mut r = from;
    // a jump moves the position, so no iterator is plainer
    while r.pos < program.kinds.len() {
        let at = r.pos;
        r = step::step(
            program.kinds[at],
            program.operands[at],
            caller,
            stack,
            work,
            r,
        );
        let Status::Going = r.status else {
            return r;
        };
    }
    registers::end(r, r.ops)
}
