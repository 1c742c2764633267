// What the chain gate compares.
use crate::parts;
use context::{ChainContext, Gate};

// Eight texts, with the byte FF between them; those that are not there are empty.
pub fn of_texts(texts: &[u8]) -> Gate<'_> {
    Gate {
        context: ChainContext {
            chain_id: part(texts, 0),
            network_id: part(texts, 1),
            genesis_id: part(texts, 2),
            protocol_version: part(texts, 3),
            vm_version: part(texts, 4),
        },
        computed_genesis_id: part(texts, 5),
        expected_protocol: part(texts, 6),
        expected_vm: part(texts, 7),
    }
}

fn part(texts: &[u8], i: usize) -> &[u8] {
    parts::nth(texts, 0xFF, i)
}
