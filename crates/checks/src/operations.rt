// The verifier's look at each operation, 44 and 45.
ghost use Rattle.std.specs.Prelude.{◌≡◌, ℕ, ◌*◌, ◌/◌, ◌≤◌, false, ltb, length, drop};
ghost use Rattle.base.specs.Need.{need};
ghost use Rattle.kinds.specs.Kinds.{operation};
ghost use Rattle.kinds.specs.declared.Program.{Program};
ghost use Rattle.kinds.specs.Code.Program.{Paired};
ghost use Rattle.checks.specs.declared.VmError.TheVariants.{JumpOutOfRange};
ghost use Rattle.checks.specs.Verify.{operation_check, operations_check};
ghost use Rattle.checks.specs.Code.Blocks.{is_bad};

use super::VmError;
use kinds::Program;

// How many operations a block has.
const BLOCK: usize = 16;

// Whole blocks are passed by tests that have no branch, and the others are tested by one operation after the other. `verify` calls
// it where the two buffers are of one length.
pub fn verify_operations(program: Program) -> Result<(), VmError>
    requires { Paired program }
    ensures { result ≡ operations_check (length program.entry.kinds.now) program.entry.kinds.now program.entry.operands.now }
{
    let size = program.kinds.len();
    let near = skip_blocks(program, 0, |block| has_far(block, size));
    let good = skip_blocks(program, near, |block| has_bad(block, size));
    let rest = Program {
        kinds: &program.kinds[good * BLOCK..],
        operands: &program.operands[good * BLOCK..],
    };
    verify_each(rest, size)
}

// The number of the first block, from one on, in which a test finds something, or that of the blocks. (As slices of what is left, in
// place of numbers, it was measured a fifth slower.)
fn skip_blocks<F: Fn(Program) -> bool>(program: Program, from: usize, finds: F) -> usize
    requires paired { Paired program }
    requires within { from ≤ length program.kinds.now / 16 }
    requires callable { F.IsAlwaysCallable finds }
    ensures within { result ≤ length program.entry.kinds.now / 16 }
    ensures passed { (n : ℕ)
        → ((block : Program) → F.post finds block false → operations_check n block.kinds.now block.operands.now ≡ Ok tt)
        → operations_check n (drop (from * 16) program.entry.kinds.now) (drop (from * 16) program.entry.operands.now)
        ≡ operations_check n (drop (result * 16) program.entry.kinds.now) (drop (result * 16) program.entry.operands.now) }
{
    let blocks = program.kinds.len() / BLOCK;
    for block in from..blocks {
        let at = block * BLOCK;
        let kinds = &program.kinds[at..at + BLOCK];
        let operands = &program.operands[at..at + BLOCK];
        if finds(Program { kinds, operands }) {
            return block;
        }
    }
    blocks
}

// Whether a kind is unknown or an operand is not below the program's length.
fn has_far(block: Program, size: usize) -> bool
    ensures { result ≡ false → operations_check size block.entry.kinds.now block.entry.operands.now ≡ Ok tt }
{
    let unknown = block
        .kinds
        .iter()
        .fold(false, |hit, kind| hit | (*kind > 15));
    let far = block
        .operands
        .iter()
        .fold(false, |hit, operand| hit | (*operand as usize >= size));
    unknown | far
}

// Whether an operation is bad.
fn has_bad(block: Program, size: usize) -> bool
    ensures { result ≡ false → operations_check size block.entry.kinds.now block.entry.operands.now ≡ Ok tt }
{
    let operations = block.kinds.iter().zip(block.operands);
    operations.fold(
        false,
        |hit, (kind, operand)| hit | is_bad(*kind, *operand, size),
    )
}

// Whether an operation's kind, the byte that C's buffer holds, is unknown, or its jump's target is not below size. No branch, as in
// the folds that call it.
fn is_bad(kind: u8, operand: u64, size: usize) -> bool
    ensures { result ≡ is_bad size (operation kind operand) }
{
    let jump = (kind == 7) | (kind == 8) | (kind == 14);
    (kind > 15) | (jump & (operand as usize >= size))
}

// The check by one operation after the other.
fn verify_each(program: Program, size: usize) -> Result<(), VmError>
    ensures { result ≡ operations_check size program.entry.kinds.now program.entry.operands.now }
{
    for (kind, operand) in program.kinds.iter().zip(program.operands) {
        verify_operation(*kind, *operand, size)?;
    }
    Ok(())
}

fn verify_operation(kind: u8, operand: u64, size: usize) -> Result<(), VmError>
    ensures { result ≡ operation_check size (operation kind operand) }
{
    match kind {
        7 | 8 | 14 => verify_target(operand as usize, size),
        0..=15 => Ok(()),
        _ => Err(VmError::UnknownKind),
    }
}

fn verify_target(target: usize, size: usize) -> Result<(), VmError>
    ensures { result ≡ need (ltb target size) (Err JumpOutOfRange) (Ok tt) }
{
    if target < size {
        Ok(())
    } else {
        Err(VmError::JumpOutOfRange)
    }
}
