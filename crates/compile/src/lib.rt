// A contract compiled and run: assembly, reading and transition in a row.
#![tactic(auto)]

ghost use Rattle.std.specs.Prelude.{◌≡◌};
ghost use Rattle.context.specs.Gate.{gate_at};
ghost use Rattle.compile.specs.declared.CompileError.TheVariants.{NotAssembled, NotRead};
ghost use Rattle.compile.specs.Numbers.{compile_error_numbered, ran_numbered};
ghost use Rattle.compile.specs.Delivery.{Delivers};

use assembler::Assembly;
use checks::VmError;
use context::Gate;
use kinds::Program;
use numbered::{Answer, Numbered};
use operation::OpsError;
use perform::{Run, State, Success};
use scope::refusal::AssembleError;

// A refusal of assembly or reading ends the call.
#[derive(Clone, Copy, Debug, PartialEq, Eq)]
pub enum CompileError {
    NotAssembled(AssembleError),
    NotRead(OpsError),
}

impl From<AssembleError> for CompileError {
    ghost from_gives = { λ e x. x ≡ NotAssembled e };

    fn from(e: AssembleError) -> CompileError {
        CompileError::NotAssembled(e)
    }
}

impl From<OpsError> for CompileError {
    ghost from_gives = { λ e x. x ≡ NotRead e };

    fn from(e: OpsError) -> CompileError {
        CompileError::NotRead(e)
    }
}

impl Answer for CompileError {
    ghost numbered_as = { compile_error_numbered };

    fn numbered(self) -> Numbered {
        match self {
            CompileError::NotAssembled(e) => e.numbered(),
            CompileError::NotRead(e) => e.numbered(),
        }
    }
}

// What assembly and reading gave, and the transition's answer.
#[derive(Clone, Copy)]
pub struct Compiled {
    pub assembly: Assembly,
    pub operations: usize,
    pub answer: Result<Success, VmError>,
}

// The number is that of the call that ends it.
impl Answer for Compiled {
    ghost numbered_as = { ran_numbered };

    fn numbered(self) -> Numbered {
        self.answer.numbered()
    }
}

// Reading takes exactly the bytes written, the transition all of both program buffers. The parameters are those of the three calls in
// document 01's order: six are `&mut`, and a struct of them would have to say what each field held at entry.
pub fn compile(
    contract: &[u8],
    vector: &[u8],
    stem: &[u8],
    out: &mut [u8],
    kinds: &mut [u8],
    operands: &mut [u64],
    gate: Gate,
    caller: u64,
    gas_limit: u64,
    stack: &mut [u64],
    work: &mut [u64],
    storage: &mut [u64],
    state: State,
) -> Result<Compiled, CompileError>
    ensures { Delivers
        (record {
          contract = contract.now;
          vector = vector.now;
          stem = stem.now;
          out = out.old;
          context = gate_at gate.entry;
          run = record {
            kinds = kinds.old;
            operands = operands.old;
            caller = caller;
            limit = gas_limit;
            state = state;
            stack = stack.old;
            work = work.old;
            storage = storage.old;
          };
        })
        result
        (record {
          out = out.new;
          kinds = kinds.new;
          operands = operands.new;
          stack = stack.new;
          work = work.new;
          storage = storage.new;
        }) }
{
    let assembly = assembler::assemble(contract, vector, stem, out)?;
    let operations = ops::parse_ops(&out[..assembly.written], kinds, operands)?;
    let run = Run {
        program: Program { kinds, operands },
        caller,
        gas_limit,
        state,
    };
    let answer = vm::execute_state_transition_with_gas(gate, run, stack, work, storage);
    Ok(Compiled {
        assembly,
        operations,
        answer,
    })
}
