// The C ABI of include/atc_vm.h: each export makes the call of its name in atc_vm, and has its clauses.
#![tactic(auto)]

ghost use Rattle.std.specs.Prelude.{◌≡◌, length};
ghost use Rattle.context.specs.Gate.{gate_of, gate_numbered};
ghost use Rattle.contract.specs.Output.{assembled};
ghost use Rattle.checks.specs.Verify.{verify_of};
ghost use Rattle.checks.specs.Numbers.{check_numbered};
ghost use Rattle.vm.specs.Transition.{metered_of, transition_of};
ghost use Rattle.atc_vm.specs.Words.{Tells};
ghost use Rattle.atc_vm.specs.Calls.{Assembled, Read, Ran, place_numbered};

#[unsafe(no_mangle)]
pub extern "C" fn atc_assemble(
    contract: &[u8],
    vector: &[u8],
    stem: &[u8],
    out: &mut [u8],
    answer: &mut [u64; 8],
) -> u64
    ensures { Assembled (assembled contract.now vector.now stem.now (length out.old))
        out.old out.new answer.new result }
{
    atc_vm::atc_assemble(contract, vector, stem, out, answer)
}

#[unsafe(no_mangle)]
pub extern "C" fn atc_parse_ops(
    text: &[u8],
    kinds: &mut [u8],
    operands: &mut [u64],
    answer: &mut [u64; 8],
) -> u64
    ensures { Read text.now kinds.old operands.old
        kinds.new operands.new answer.new result }
{
    atc_vm::atc_parse_ops(text, kinds, operands, answer)
}

// The place and the length of the trimmed line of a number from 1; 0 and 0 where there is none.
#[unsafe(no_mangle)]
pub extern "C" fn atc_trimmed_line(text: &[u8], line: u64, answer: &mut [u64; 8]) -> u64
    ensures { Tells (place_numbered text.now line) answer.new result }
{
    atc_vm::atc_trimmed_line(text, line, answer)
}

#[unsafe(no_mangle)]
pub extern "C" fn atc_execution_gate(
    chain_id: &[u8],
    network_id: &[u8],
    genesis_id: &[u8],
    protocol_version: &[u8],
    vm_version: &[u8],
    computed_genesis_id: &[u8],
    expected_protocol: &[u8],
    expected_vm: &[u8],
) -> u64
    ensures { result ≡ (gate_numbered (gate_of chain_id.now network_id.now genesis_id.now
        protocol_version.now vm_version.now computed_genesis_id.now
        expected_protocol.now expected_vm.now)).number }
{
    atc_vm::atc_execution_gate(
        chain_id,
        network_id,
        genesis_id,
        protocol_version,
        vm_version,
        computed_genesis_id,
        expected_protocol,
        expected_vm,
    )
}

#[unsafe(no_mangle)]
pub extern "C" fn atc_verify(
    kinds: &[u8],
    operands: &[u64],
    used: u64,
    answer: &mut [u64; 8],
) -> u64
    ensures { Tells (check_numbered (verify_of kinds.now operands.now used)) answer.new result }
{
    atc_vm::atc_verify(kinds, operands, used, answer)
}

#[unsafe(no_mangle)]
pub extern "C" fn atc_run_with_gas(
    kinds: &[u8],
    operands: &[u64],
    caller: u64,
    gas_limit: u64,
    stack: &mut [u64],
    work: &mut [u64],
    storage: &mut [u64],
    used: u64,
    answer: &mut [u64; 8],
) -> u64
    ensures { Ran
        (metered_of (record {
          kinds = kinds.now;
          operands = operands.now;
          caller = caller;
          limit = gas_limit;
          state = record { used = used };
          stack = stack.old;
          work = work.old;
          storage = storage.old;
        }))
        stack.new work.new storage.new answer.new result }
{
    atc_vm::atc_run_with_gas(
        kinds, operands, caller, gas_limit, stack, work, storage, used, answer,
    )
}

#[unsafe(no_mangle)]
pub extern "C" fn atc_execute_state_transition_with_gas(
    chain_id: &[u8],
    network_id: &[u8],
    genesis_id: &[u8],
    protocol_version: &[u8],
    vm_version: &[u8],
    computed_genesis_id: &[u8],
    expected_protocol: &[u8],
    expected_vm: &[u8],
    kinds: &[u8],
    operands: &[u64],
    caller: u64,
    gas_limit: u64,
    stack: &mut [u64],
    work: &mut [u64],
    storage: &mut [u64],
    used: u64,
    answer: &mut [u64; 8],
) -> u64
    ensures { Ran
        (transition_of
        (gate_of chain_id.now network_id.now genesis_id.now
        protocol_version.now vm_version.now computed_genesis_id.now
        expected_protocol.now expected_vm.now)
        (record {
          kinds = kinds.now;
          operands = operands.now;
          caller = caller;
          limit = gas_limit;
          state = record { used = used };
          stack = stack.old;
          work = work.old;
          storage = storage.old;
        }))
        stack.new work.new storage.new answer.new result }
{
    atc_vm::atc_execute_state_transition_with_gas(
        chain_id,
        network_id,
        genesis_id,
        protocol_version,
        vm_version,
        computed_genesis_id,
        expected_protocol,
        expected_vm,
        kinds,
        operands,
        caller,
        gas_limit,
        stack,
        work,
        storage,
        used,
        answer,
    )
}

#[unsafe(no_mangle)]
pub extern "C" fn atc_execute_state_transition(
    chain_id: &[u8],
    network_id: &[u8],
    genesis_id: &[u8],
    protocol_version: &[u8],
    vm_version: &[u8],
    computed_genesis_id: &[u8],
    expected_protocol: &[u8],
    expected_vm: &[u8],
    kinds: &[u8],
    operands: &[u64],
    caller: u64,
    stack: &mut [u64],
    work: &mut [u64],
    storage: &mut [u64],
    used: u64,
    answer: &mut [u64; 8],
) -> u64
    ensures { Ran
        (transition_of
        (gate_of chain_id.now network_id.now genesis_id.now
        protocol_version.now vm_version.now computed_genesis_id.now
        expected_protocol.now expected_vm.now)
        (record {
          kinds = kinds.now;
          operands = operands.now;
          caller = caller;
          limit = 0;
          state = record { used = used };
          stack = stack.old;
          work = work.old;
          storage = storage.old;
        }))
        stack.new work.new storage.new answer.new result }
{
    atc_vm::atc_execute_state_transition(
        chain_id,
        network_id,
        genesis_id,
        protocol_version,
        vm_version,
        computed_genesis_id,
        expected_protocol,
        expected_vm,
        kinds,
        operands,
        caller,
        stack,
        work,
        storage,
        used,
        answer,
    )
}
