// The chain gate: what a state transition tests of its context before anything else is looked at.
#![tactic(auto)]

ghost use Rattle.std.specs.Prelude.{◌≡◌};
ghost use Rattle.context.specs.Gate.{is_hex_digit, is_network, is_genesis_id, genesis_of, gate_at, context_error_numbered};
ghost use Rattle.context.specs.Code.Valid.{valid_of};
ghost use Rattle.base.specs.Lists.{all};
ghost use Rattle.numbered.specs.Numbered.{Answered, unit_numbered, result_numbered};

use numbered::{Answer, Numbered, plain};

pub const CHAIN_ID: [u8; 3] = *b"atc";

#[derive(Clone, Copy, Debug, PartialEq, Eq)]
pub enum ContextError {
    InvalidChainId,
    InvalidNetworkId,
    InvalidGenesisId,
    ProtocolMismatch,
    VmMismatch,
    GenesisMismatch,
}

impl Answer for ContextError {
    ghost numbered_as = { context_error_numbered };

    fn numbered(self) -> Numbered {
        match self {
            ContextError::InvalidChainId => plain(35),
            ContextError::InvalidNetworkId => plain(36),
            ContextError::InvalidGenesisId => plain(37),
            ContextError::ProtocolMismatch => plain(38),
            ContextError::VmMismatch => plain(39),
            ContextError::GenesisMismatch => plain(40),
        }
    }
}

// What a state transition says of the chain that it is for. Texts are compared byte by byte; none has to be UTF-8.
#[derive(Clone, Copy)]
pub struct ChainContext<'a> {
    pub chain_id: &'a [u8],
    pub network_id: &'a [u8],
    pub genesis_id: &'a [u8],
    pub protocol_version: &'a [u8],
    pub vm_version: &'a [u8],
}

impl<'a> ChainContext<'a> {
    // Refuses with the first of document 01's 35 to 39 that applies.
    #[tactic(auto, using(crate::proofs::Laws::own))]
    pub fn validate(self, expected_protocol: &[u8], expected_vm: &[u8]) -> Result<(), ContextError>
        ensures { result ≡ valid_of self.entry expected_protocol.now expected_vm.now }
    {
        if self.chain_id != &CHAIN_ID[..] {
            return Err(ContextError::InvalidChainId);
        }
        if !is_network(self.network_id) {
            return Err(ContextError::InvalidNetworkId);
        }
        if !is_genesis_id(self.genesis_id) {
            return Err(ContextError::InvalidGenesisId);
        }
        if self.protocol_version != expected_protocol {
            return Err(ContextError::ProtocolMismatch);
        }
        if self.vm_version != expected_vm {
            return Err(ContextError::VmMismatch);
        }
        Ok(())
    }

    // Refuses with 40 a genesis id that is another than the one computed.
    pub fn verify_genesis_id(self, computed: &[u8]) -> Result<(), ContextError>
        ensures { result ≡ genesis_of self.entry.genesis_id.now computed.now }
    {
        if self.genesis_id != computed {
            return Err(ContextError::GenesisMismatch);
        }
        Ok(())
    }
}

// What the chain gate tests: a context, and what it is held against.
#[derive(Clone, Copy)]
pub struct Gate<'a> {
    pub context: ChainContext<'a>,
    pub computed_genesis_id: &'a [u8],
    pub expected_protocol: &'a [u8],
    pub expected_vm: &'a [u8],
}

// Tests the context of a transition. It refuses with the first of document 01's 35 to 40 that applies.
#[tactic(auto, using(crate::proofs::Laws::valid_then))]
pub fn execution_gate(gate: Gate) -> Result<(), ContextError>
    ensures { Answered (result_numbered unit_numbered context_error_numbered) (gate_at gate.entry) result }
{
    gate.context
        .validate(gate.expected_protocol, gate.expected_vm)?;
    gate.context.verify_genesis_id(gate.computed_genesis_id)
}

fn is_network(s: &[u8]) -> bool
    ensures { result ≡ is_network s.now }
{
    s == &b"devnet"[..] || s == &b"testnet"[..] || s == &b"mainnet"[..]
}

fn is_genesis_id(s: &[u8]) -> bool
    ensures { result ≡ is_genesis_id s.now }
{
    s.len() == 64 && all_hex_digits(s)
}

// No branch: it compiles to vector code.
fn all_hex_digits(s: &[u8]) -> bool
    ensures { result ≡ all is_hex_digit s.now }
{
    s.iter().fold(true, |all, c| all & c.is_ascii_hexdigit())
}
