// A range of bytes, a choice by a test, a byte that is not in a text, scans of offsets by a test, a part of a text, and copying.
#![tactic(auto)]

ghost use Rattle.std.specs.Prelude.{◌≡◌, cond};
ghost use Rattle.base.specs.Range.{within};
ghost use Rattle.base.specs.Code.Without.{without};

mod copies;
mod scans;
mod span;

pub use copies::copy;
pub use scans::{any_at, first_that};
pub use span::Span;

// The two tests are joined with no branch, so that loops over bytes compile to vector code.
pub fn in_range(lo: u8, hi: u8, a: u8) -> bool
    ensures { result ≡ within lo hi a }
{
    (lo <= a) & (a <= hi)
}

// As a call it is one term in a proof, where each `if` would part the goals in two.
pub fn pick<T: Copy>(test: bool, yes: T, no: T) -> T
    ensures { result ≡ cond test yes no }
{
    if test { yes } else { no }
}

// With no branch the fold compiles to vector code; with `contains`, which LLVM leaves a call, the assembly of a key of 30,000 quotes took
// 1.6 of the time.
pub fn lacks(s: &[u8], b: u8) -> bool
    ensures { result ≡ without b s.now }
{
    s.iter().fold(true, |lacks, a| lacks & (*a != b))
}
