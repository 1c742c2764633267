// Copies, between storage and work buffer, of the used slots that a run needs. `Run::perform` and `finish` call them behind the
// test of lengths (34).
// How much is used stays beside the buffers: what lies past it is theirs too, and each promise speaks of it.
ghost use Rattle.std.specs.Prelude.{◌≡◌, ◌&&◌, ◌≤◌, ltb, length};
ghost use Rattle.kinds.specs.Kinds.{operation};
ghost use Rattle.kinds.specs.Code.Program.{Paired};
ghost use Rattle.perform.specs.Code.Needed.{Copied, names, named, needed, stores, changed};

use super::buffers;
use kinds::Program;

// All the used slots, or those that a short program names: where it has more operations than an eighth of the used slots, scanning it
// costs more than copying them all.
pub fn copy_needed(d: &mut [u64], s: &[u64], program: Program, used: usize)
    requires { Paired program × (used ≤ length d.old) × (used ≤ length s.now) }
    ensures { Copied (λ j. needed program.entry.kinds.now program.entry.operands.now used j && ltb j used)
        s.now d.old d.new }
{
    if program.kinds.len() > used / 8 {
        buffers::copy_part(d, s, 0, used);
    } else {
        copy_named(d, s, program, used);
    }
}

// Those that a run may have changed: none where the program has no Store.
pub fn copy_changed(d: &mut [u64], s: &[u64], program: Program, used: usize)
    requires { Paired program × (used ≤ length d.old) × (used ≤ length s.now) }
    ensures { Copied (λ j. changed program.entry.kinds.now program.entry.operands.now used j && ltb j used)
        s.now d.old d.new }
{
    if has_store(program.kinds) {
        copy_needed(d, s, program, used);
    }
}

// No branch: it compiles to vector code.
fn has_store(kinds: &[u8]) -> bool
    ensures { result ≡ stores kinds.now }
{
    kinds.iter().fold(false, |hit, kind| hit | (*kind == 12))
}

// Only the slots that the program names.
fn copy_named(d: &mut [u64], s: &[u64], program: Program, used: usize)
    requires { Paired program × (used ≤ length d.old) × (used ≤ length s.now) }
    ensures { Copied (λ j. named program.entry.kinds.now program.entry.operands.now (length program.entry.kinds.now) j && ltb j used)
        s.now d.old d.new }
{
    for (kind, operand) in program.kinds.iter().zip(program.operands) {
        copy_slot(d, s, *kind, *operand, used);
    }
}

// The slot that one operation names, if it names one and that is used. Its kind is the byte that C's buffer holds.
fn copy_slot(d: &mut [u64], s: &[u64], kind: u8, operand: u64, used: usize)
    requires { (used ≤ length d.old) × (used ≤ length s.now) }
    ensures { Copied (λ j. names (operation kind operand) j && ltb j used)
        s.now d.old d.new }
{
    let slot = operand as usize;
    let named = (kind == 11) | (kind == 12);
    if named && slot < used {
        d[slot] = s[slot];
    }
}
