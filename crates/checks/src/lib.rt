// What is tested before a run: the lent buffers' lengths, and the verifier; and the refusals of a call, those of its run included.
#![tactic(auto)]

ghost use Rattle.std.specs.Prelude.{◌≡◌, length};
ghost use Rattle.numbered.specs.Numbered.{Answered};
ghost use Rattle.checks.specs.declared.VmError.TheVariants.{Context};
ghost use Rattle.checks.specs.Numbers.{vm_error_numbered, check_numbered};
ghost use Rattle.checks.specs.Verify.{buffers_fit, verify_of};

mod operations;

use kinds::{MAX_PROGRAM_OPS, MAX_STACK_ITEMS, MAX_STORAGE_SLOTS, Program};
use numbered::{Answer, Numbered, carrying, plain};

// One flat enum, since the original's public one is. `perform` turns the machine's six refusals into these.
#[derive(Clone, Copy, Debug, PartialEq, Eq)]
pub enum VmError {
    BufferLengths,
    Context(context::ContextError),
    EmptyProgram,
    ProgramTooLarge(usize),
    StorageTooLarge(usize),
    UnknownKind,
    JumpOutOfRange,
    OutOfGas { price: u64, left: u64 },
    StackUnderflow,
    StackLimitExceeded,
    DivisionByZero,
    StorageLimitExceeded(u64),
    OutsideStorage,
}

impl From<context::ContextError> for VmError {
    ghost from_gives = { λ e f. f ≡ Context e };

    fn from(e: context::ContextError) -> VmError {
        VmError::Context(e)
    }
}

impl Answer for VmError {
    ghost numbered_as = { vm_error_numbered };

    fn numbered(self) -> Numbered {
        match self {
            VmError::BufferLengths => plain(34),
            VmError::Context(e) => e.numbered(),
            VmError::EmptyProgram => plain(41),
            VmError::ProgramTooLarge(size) => carrying(42, [size as u64]),
            VmError::StorageTooLarge(used) => carrying(43, [used as u64]),
            VmError::UnknownKind => plain(44),
            VmError::JumpOutOfRange => plain(45),
            VmError::OutOfGas { price, left } => carrying(46, [price, left]),
            VmError::StackUnderflow => plain(47),
            VmError::StackLimitExceeded => plain(48),
            VmError::DivisionByZero => plain(49),
            VmError::StorageLimitExceeded(slots) => carrying(50, [slots]),
            VmError::OutsideStorage => plain(51),
        }
    }
}

// 34: the program's two buffers are of one length, the stack buffer has 4,096 or more, the work and
// the storage buffer are of one length, and the used slots lie in the storage buffer.
pub fn buffers_fit(
    kinds: usize,
    operands: usize,
    stack: usize,
    work: usize,
    storage: usize,
    used: usize,
) -> bool
    ensures { result ≡ buffers_fit kinds operands stack work storage used }
{
    (kinds == operands && stack >= MAX_STACK_ITEMS) && (work == storage && used <= storage)
}

// Tests a program before it is run, and the used length of the storage that it would run on. It refuses with 34 of document 01 where kinds
// and operands differ in length, then with the first of 41 to 45 that applies; 44 and 45 go by the position of the operation.
pub fn verify(program: Program, used: usize) -> Result<(), VmError>
    ensures { Answered check_numbered (verify_of program.entry.kinds.now program.entry.operands.now used) result }
{
    let size = program.kinds.len();
    if !program.is_paired() {
        return Err(VmError::BufferLengths);
    }
    if size == 0 {
        return Err(VmError::EmptyProgram);
    }
    if size > MAX_PROGRAM_OPS {
        return Err(VmError::ProgramTooLarge(size));
    }
    if used > MAX_STORAGE_SLOTS {
        return Err(VmError::StorageTooLarge(used));
    }
    operations::verify_operations(program)
}
