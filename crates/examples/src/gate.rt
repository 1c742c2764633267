// E10: the gate of a chain whose genesis id is 64 `A`, the computed one being 64 `a`.
ghost use Rattle.std.specs.Prelude.{◌≡◌};
ghost use Rattle.numbered.specs.Numbered.{plain};
ghost use Rattle.context.specs.Gate.{gate_numbered};

use context::{ChainContext, ContextError, Gate, execution_gate};

pub fn letters() -> Result<(), ContextError>
    ensures { gate_numbered result ≡ plain 40 }
{
    let genesis = [b'A'; 64];
    let computed = [b'a'; 64];
    execution_gate(Gate {
        context: ChainContext {
            chain_id: b"atc",
            network_id: b"devnet",
            genesis_id: &genesis,
            protocol_version: b"1",
            vm_version: b"2",
        },
        computed_genesis_id: &computed,
        expected_protocol: b"1",
        expected_vm: b"2",
    })
}
