// The product modulo 2^64 in document 01's form, and the two-sided operations.
#![tactic(auto)]

ghost use Rattle.std.specs.Prelude.{◌≡◌, ◌*◌, ◌%◌, ◌^◌};
ghost use Rattle.word.specs.Apply.{apply};
ghost use Rattle.word.specs.Code.Operator.{binary_of};

// A two-sided operation, which the machine and the assembler's expressions share.
#[derive(Clone, Copy, Debug, PartialEq, Eq)]
pub enum Operator {
    Add,
    Sub,
    Mul,
    Div,
    Equal,
    Less,
}

impl Operator {
    // The operation on a and b. There is no value where b divides and is 0.
    pub fn apply(self, a: u64, b: u64) -> Option<u64>
        ensures { result ≡ apply (binary_of self) a b }
    {
        match self {
            Operator::Add => Some(a.wrapping_add(b)),
            Operator::Sub => Some(a.wrapping_sub(b)),
            Operator::Mul => Some(wrapping_mul(a, b)),
            Operator::Div => a.checked_div(b),
            Operator::Equal => Some(u64::from(a == b)),
            Operator::Less => Some(u64::from(a < b)),
        }
    }
}

// u64::wrapping_mul, by document 01's form from halves of 32 bits: of the four products of halves the upper one lies
// above the word, and of the two cross products only the lower halves lie in it.
pub fn wrapping_mul(a: u64, b: u64) -> u64
    ensures { result ≡ (a * b) % 2 ^ 64 }
{
    let a_low = a % 0x1_0000_0000;
    let a_high = a / 0x1_0000_0000;
    let b_low = b % 0x1_0000_0000;
    let b_high = b / 0x1_0000_0000;
    let cross = (a_high * b_low).wrapping_add(a_low * b_high);
    let upper = cross % 0x1_0000_0000 * 0x1_0000_0000;
    (a_low * b_low).wrapping_add(upper)
}
