// The run of E1's text, and E2 to E6.
ghost use Rattle.std.specs.Prelude.{◌≡◌, [], ◌∷◌, replicate};
ghost use Rattle.numbered.specs.Numbered.{plain, carrying};
ghost use Rattle.perform.specs.Numbers.{run_answer_numbered};
ghost use Rattle.examples.specs.Numbers.{Gives};
ghost use Rattle.examples.specs.Runs.{zeros, four};

use crate::run::{answer, answer_on_four, on_four, plain};
use checks::VmError;
use perform::Success;

const TALLY: [u8; 67] =
    *b"# contract: tally\n# expected: 24\nPush 5\nPush 7\nAdd\nPush 2\nMul\nHalt\n";

pub fn tally(stack: &mut [u64; 4096]) -> Result<Success, VmError>
    requires { stack.old ≡ zeros }
    ensures { Gives (run_answer_numbered result) (carrying 0 (7 ∷ 6 ∷ 1 ∷ 0 ∷ [])) stack.new (24 ∷ replicate 4095 0) }
{
    plain(&TALLY, 1000, stack)
}

pub fn tally_short() -> Result<Success, VmError>
    ensures { run_answer_numbered result ≡ carrying 46 (2 ∷ 1 ∷ []) }
{
    answer(&TALLY, 6)
}

pub fn div_price() -> Result<Success, VmError>
    ensures { run_answer_numbered result ≡ carrying 46 (2 ∷ 1 ∷ []) }
{
    answer(b"Div\n", 1)
}

pub fn div_items() -> Result<Success, VmError>
    ensures { run_answer_numbered result ≡ plain 47 }
{
    answer(b"Div\n", 2)
}

pub fn halt() -> Result<Success, VmError>
    ensures { run_answer_numbered result ≡ carrying 0 (0 ∷ 1 ∷ 0 ∷ 0 ∷ []) }
{
    answer(b"Halt\n", 0)
}

pub fn lone_push(stack: &mut [u64; 4096]) -> Result<Success, VmError>
    requires { stack.old ≡ zeros }
    ensures { Gives (run_answer_numbered result) (carrying 0 (1 ∷ 1 ∷ 1 ∷ 0 ∷ [])) stack.new (9 ∷ replicate 4095 0) }
{
    plain(b"Push 9\n", 1000, stack)
}

pub fn lone_jump() -> Result<Success, VmError>
    ensures { run_answer_numbered result ≡ plain 45 }
{
    answer(b"Jump 1\n", 1000)
}

pub fn store_3(storage: &mut [u64; 4]) -> Result<Success, VmError>
    requires { storage.old ≡ four }
    ensures { Gives (run_answer_numbered result) (carrying 0 (4 ∷ 2 ∷ 0 ∷ 4 ∷ [])) storage.new (0 ∷ 0 ∷ 0 ∷ 1 ∷ []) }
{
    on_four(b"Push 1\nStore 3\n", storage)
}

pub fn store_4() -> Result<Success, VmError>
    ensures { run_answer_numbered result ≡ plain 51 }
{
    answer_on_four(b"Push 1\nStore 4\n")
}

pub fn store_65535() -> Result<Success, VmError>
    ensures { run_answer_numbered result ≡ plain 51 }
{
    answer_on_four(b"Push 1\nStore 65535\n")
}

pub fn store_65536() -> Result<Success, VmError>
    ensures { run_answer_numbered result ≡ carrying 50 (65537 ∷ []) }
{
    answer_on_four(b"Push 1\nStore 65536\n")
}
