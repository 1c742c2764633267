// The calls that C makes, by atc_vm_c: each call of document 01, with its number as the result and what the answer carries in eight words.
// Their parameters are those of include/atc_vm.h, one by one, so no struct holds those that travel together.
#![tactic(auto)]

ghost use Rattle.std.specs.Prelude.{◌≡◌, length};
ghost use Rattle.context.specs.Gate.{gate_of, gate_numbered};
ghost use Rattle.contract.specs.Output.{assembled};
ghost use Rattle.checks.specs.Verify.{verify_of};
ghost use Rattle.checks.specs.Numbers.{check_numbered};
ghost use Rattle.vm.specs.Transition.{metered_of, transition_of};
ghost use Rattle.atc_vm.specs.Words.{Tells};
ghost use Rattle.atc_vm.specs.Calls.{Assembled, Read, Ran, place_numbered};

use context::{ChainContext, Gate};
use kinds::Program;
use numbered::{Answer, Numbered, carrying, plain};
use perform::{Run, State};
use source::parameters::trimmed_span;

fn tell(answer: &mut [u64; 8], n: Numbered) -> u64
    ensures { Tells n answer.new result }
{
    answer.copy_from_slice(&n.words);
    n.number
}

pub fn atc_assemble(
    contract: &[u8],
    vector: &[u8],
    stem: &[u8],
    out: &mut [u8],
    answer: &mut [u64; 8],
) -> u64
    ensures { Assembled (assembled contract.now vector.now stem.now (length out.old))
        out.old out.new answer.new result }
{
    let assembled = assembler::assemble(contract, vector, stem, out);
    tell(answer, assembled.numbered())
}

pub fn atc_parse_ops(
    text: &[u8],
    kinds: &mut [u8],
    operands: &mut [u64],
    answer: &mut [u64; 8],
) -> u64
    ensures { Read text.now kinds.old operands.old
        kinds.new operands.new answer.new result }
{
    let read = ops::parse_ops(text, kinds, operands);
    tell(answer, read.numbered())
}

// The place and the length of the trimmed line of a number from 1; 0 and 0 where there is none.
pub fn atc_trimmed_line(text: &[u8], line: u64, answer: &mut [u64; 8]) -> u64
    ensures { Tells (place_numbered text.now line) answer.new result }
{
    let Some(l) = ops::nth_line(text, line as usize) else {
        return tell(answer, plain(0));
    };
    let span = trimmed_span(&text[l.text.start..l.text.end]);
    let place = l.text.start + span.start;
    let len = span.end - span.start;
    tell(answer, carrying(0, [place as u64, len as u64]))
}

pub fn atc_execution_gate(
    chain_id: &[u8],
    network_id: &[u8],
    genesis_id: &[u8],
    protocol_version: &[u8],
    vm_version: &[u8],
    computed_genesis_id: &[u8],
    expected_protocol: &[u8],
    expected_vm: &[u8],
) -> u64
    ensures { result ≡ (gate_numbered (gate_of chain_id.now network_id.now genesis_id.now
        protocol_version.now vm_version.now computed_genesis_id.now
        expected_protocol.now expected_vm.now)).number }
{
    // Written out here and below: a function would take the same eight texts.
    let gate = Gate {
        context: ChainContext {
            chain_id,
            network_id,
            genesis_id,
            protocol_version,
            vm_version,
        },
        computed_genesis_id,
        expected_protocol,
        expected_vm,
    };
    context::execution_gate(gate).numbered().number
}

pub fn atc_verify(kinds: &[u8], operands: &[u64], used: u64, answer: &mut [u64; 8]) -> u64
    ensures { Tells (check_numbered (verify_of kinds.now operands.now used)) answer.new result }
{
    let check = checks::verify(Program { kinds, operands }, used as usize);
    tell(answer, check.numbered())
}

pub fn atc_run_with_gas(
    kinds: &[u8],
    operands: &[u64],
    caller: u64,
    gas_limit: u64,
    stack: &mut [u64],
    work: &mut [u64],
    storage: &mut [u64],
    used: u64,
    answer: &mut [u64; 8],
) -> u64
    ensures { Ran
        (metered_of (record {
          kinds = kinds.now;
          operands = operands.now;
          caller = caller;
          limit = gas_limit;
          state = record { used = used };
          stack = stack.old;
          work = work.old;
          storage = storage.old;
        }))
        stack.new work.new storage.new answer.new result }
{
    let run = Run {
        program: Program { kinds, operands },
        caller,
        gas_limit,
        state: State {
            used: used as usize,
        },
    };
    let ran = vm::run_with_gas(run, stack, work, storage);
    tell(answer, ran.numbered())
}

pub fn atc_execute_state_transition_with_gas(
    chain_id: &[u8],
    network_id: &[u8],
    genesis_id: &[u8],
    protocol_version: &[u8],
    vm_version: &[u8],
    computed_genesis_id: &[u8],
    expected_protocol: &[u8],
    expected_vm: &[u8],
    kinds: &[u8],
    operands: &[u64],
    caller: u64,
    gas_limit: u64,
    stack: &mut [u64],
    work: &mut [u64],
    storage: &mut [u64],
    used: u64,
    answer: &mut [u64; 8],
) -> u64
    ensures { Ran
        (transition_of
        (gate_of chain_id.now network_id.now genesis_id.now
        protocol_version.now vm_version.now computed_genesis_id.now
        expected_protocol.now expected_vm.now)
        (record {
          kinds = kinds.now;
          operands = operands.now;
          caller = caller;
          limit = gas_limit;
          state = record { used = used };
          stack = stack.old;
          work = work.old;
          storage = storage.old;
        }))
        stack.new work.new storage.new answer.new result }
{
    let gate = Gate {
        context: ChainContext {
            chain_id,
            network_id,
            genesis_id,
            protocol_version,
            vm_version,
        },
        computed_genesis_id,
        expected_protocol,
        expected_vm,
    };
    let run = Run {
        program: Program { kinds, operands },
        caller,
        gas_limit,
        state: State {
            used: used as usize,
        },
    };
    let ran = vm::execute_state_transition_with_gas(gate, run, stack, work, storage);
    tell(answer, ran.numbered())
}

pub fn atc_execute_state_transition(
    chain_id: &[u8],
    network_id: &[u8],
    genesis_id: &[u8],
    protocol_version: &[u8],
    vm_version: &[u8],
    computed_genesis_id: &[u8],
    expected_protocol: &[u8],
    expected_vm: &[u8],
    kinds: &[u8],
    operands: &[u64],
    caller: u64,
    stack: &mut [u64],
    work: &mut [u64],
    storage: &mut [u64],
    used: u64,
    answer: &mut [u64; 8],
) -> u64
    ensures { Ran
        (transition_of
        (gate_of chain_id.now network_id.now genesis_id.now
        protocol_version.now vm_version.now computed_genesis_id.now
        expected_protocol.now expected_vm.now)
        (record {
          kinds = kinds.now;
          operands = operands.now;
          caller = caller;
          limit = 0;
          state = record { used = used };
          stack = stack.old;
          work = work.old;
          storage = storage.old;
        }))
        stack.new work.new storage.new answer.new result }
{
    atc_execute_state_transition_with_gas(
        chain_id,
        network_id,
        genesis_id,
        protocol_version,
        vm_version,
        computed_genesis_id,
        expected_protocol,
        expected_vm,
        kinds,
        operands,
        caller,
        0,
        stack,
        work,
        storage,
        used,
        answer,
    )
}
