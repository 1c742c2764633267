// Runs of ops text by caller 7 with no storage used.
ghost use Rattle.std.specs.Prelude.{◌≡◌};
ghost use Rattle.perform.specs.Run.{Meets};
ghost use Rattle.examples.specs.Runs.{ran, zeros, plainly, four, on_four, Ends, Stores};

use checks::VmError;
use kinds::Program;
use perform::{Run, State, Success};

// The caller lends the stack, to look at it after the run. All buffers are 4,096 long. That the stack is of zeros is asked here and of
// three examples: it is what their definitions run on, and a struct for it would hold one array.
pub fn plain(text: &[u8], limit: u64, stack: &mut [u64; 4096]) -> Result<Success, VmError>
    requires { stack.old ≡ zeros }
    ensures { Ends (plainly text.now limit) result stack.new }
{
    let mut work = [0; 4096];
    let mut storage = [0; 4096];
    run(text, limit, stack, &mut work, &mut storage)
}

// The same, for its answer alone.
pub fn answer(text: &[u8], limit: u64) -> Result<Success, VmError>
    ensures { result ≡ (plainly text.now limit).answer }
{
    let mut stack = [0; 4096];
    plain(text, limit, &mut stack)
}

// Four lent slots, with a limit of 1,000.
pub fn on_four(text: &[u8], storage: &mut [u64; 4]) -> Result<Success, VmError>
    requires { storage.old ≡ four }
    ensures { Stores (on_four text.now) result storage.new }
{
    let mut stack = [0; 4096];
    let mut work = [7; 4];
    run(text, 1000, &mut stack, &mut work, storage)
}

// The same, for its answer alone.
pub fn answer_on_four(text: &[u8]) -> Result<Success, VmError>
    ensures { result ≡ (on_four text.now).answer }
{
    let mut storage = [7; 4];
    on_four(text, &mut storage)
}

// A text that is refused has no operations.
fn run(
    text: &[u8],
    limit: u64,
    stack: &mut [u64],
    work: &mut [u64],
    storage: &mut [u64],
) -> Result<Success, VmError>
    ensures { Meets (ran text.now limit stack.old work.old storage.old)
        (record { used = 0 }) result stack.new work.new storage.new }
{
    let mut kinds = [0; 4096];
    let mut operands = [0; 4096];
    let n = ops::parse_ops(text, &mut kinds, &mut operands).unwrap_or(0);
    let run = Run {
        program: Program {
            kinds: &kinds[..n],
            operands: &operands[..n],
        },
        caller: 7,
        gas_limit: limit,
        state: State { used: 0 },
    };
    vm::run_with_gas(run, stack, work, storage)
}
