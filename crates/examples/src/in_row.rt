// E1 through the three calls in a row, with the least limit that suffices.
ghost use Rattle.std.specs.Prelude.{◌≡◌, [], ◌∷◌, replicate};
ghost use Rattle.numbered.specs.Numbered.{carrying};
ghost use Rattle.compile.specs.Numbers.{compiled_numbered};
ghost use Rattle.examples.specs.Numbers.{Gives};
ghost use Rattle.examples.specs.Runs.{zeros};

use compile::{CompileError, Compiled, compile};
use context::{ChainContext, Gate};
use perform::State;

pub fn tally(stack: &mut [u64; 4096]) -> Result<Compiled, CompileError>
    requires { stack.old ≡ zeros }
    ensures { Gives (compiled_numbered result) (carrying 0 (7 ∷ 6 ∷ 1 ∷ 0 ∷ [])) stack.new (24 ∷ replicate 4095 0) }
{
    let genesis = [97u8; 64];
    let mut out = [0u8; 67];
    let mut kinds = [0u8; 6];
    let mut operands = [0u64; 6];
    let mut work = [7u64; 4];
    let mut storage = [7u64; 4];
    // each example writes out its gate, which its contract names
    let gate = Gate {
        context: ChainContext {
            chain_id: b"atc",
            network_id: b"devnet",
            genesis_id: &genesis,
            protocol_version: b"1",
            vm_version: b"2",
        },
        computed_genesis_id: &genesis,
        expected_protocol: b"1",
        expected_vm: b"2",
    };
    compile(
        b"fn total (a, b) {\n  let s = a + b\n  return s * 2\n}\n",
        b"{\"a\": 5, \"b\": 7, \"expected\": 24}",
        b"tally",
        &mut out,
        &mut kinds,
        &mut operands,
        gate,
        7,
        7,
        stack,
        &mut work,
        &mut storage,
        State { used: 0 },
    )
}
