// Copies and zeros in the lent buffers, with the promises that the run's definition is met by. The run calls them with lengths that lie within both buffers, by the test of lengths (34).
ghost use Rattle.std.specs.Prelude.{◌≡◌, ◌++◌, ◌&&◌, ◌-◌, ◌≤◌, length, take, replicate, leb, ltb};
ghost use Rattle.perform.specs.Code.Needed.{Copied};

use base::copy;

// The part of `s` from `a` up to `e`, put at the same place of `d`.
pub fn copy_part(d: &mut [u64], s: &[u64], a: usize, e: usize)
    requires { (a ≤ e) × (e ≤ length d.old) × (e ≤ length s.now) }
    ensures { Copied (λ j. leb a j && ltb j e) s.now d.old d.new }
{
    copy(&mut d[a..e], &s[a..e]);
}

// Zeros from `a` to the end.
pub fn clear_from(s: &mut [u64], a: usize)
    requires { a ≤ length s.old }
    ensures { s.new ≡ take a s.old ++ replicate (length s.old - a) 0 }
{
    s[a..].fill(0);
}
