// The limits of the machine, by the Rust's names, and a program as its two lent buffers. The table of the sixteen kinds is a
// definition alone.
#![tactic(auto)]

ghost use Rattle.std.specs.Prelude.{◌≡◌, eqb, length};

pub const MAX_PROGRAM_OPS: usize = 65536;

pub const MAX_STACK_ITEMS: usize = 4096;

pub const MAX_STORAGE_SLOTS: usize = 65536;

// A program in the two buffers that C lends: of each operation the number of its kind, a byte, and its operand. The buffers can differ in
// length, so `is_paired` tests it, and no invariant says it.
#[derive(Clone, Copy)]
pub struct Program<'a> {
    pub kinds: &'a [u8],
    pub operands: &'a [u64],
}

impl<'a> Program<'a> {
    pub fn is_paired(self) -> bool
        ensures { result ≡ eqb (length self.entry.kinds.now) (length self.entry.operands.now) }
    {
        self.kinds.len() == self.operands.len()
    }
}
