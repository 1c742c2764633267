// Scans of the offsets from an offset on, by a test of each.
ghost use Rattle.std.specs.Prelude.{◌≡◌, true, false, ◌+◌, ◌<◌, ◌≤◌, ◌^◌, ℕ};
ghost use Rattle.base.specs.Code.Scan.{FirstThat};

// Whether a test says yes at one of the n offsets starting at an offset. It has no branch. Counted from 0, since a block's n is a constant:
// a loop over `at..at + n` took 1.1 to 1.6 times the time. A fold's proof has to follow what the closure asks at each turn.
pub fn any_at<F: Fn(usize) -> bool>(at: usize, n: usize, test: F) -> bool
    requires fits { at + n < 2 ^ 64 }
    requires test { (i : ℕ) → at ≤ i → i < at + n → F.pre test i }
    ensures some { result ≡ true → (i : ℕ) × (at ≤ i) × (i < at + n) × F.post test i true }
    ensures none { result ≡ false → (i : ℕ) → at ≤ i → i < at + n → F.post test i false }
{
    let mut hit = false;
    for k in 0..n {
        hit |= test(at + k);
    }
    hit
}

// The first offset from an offset on and before end at which a test says yes. Its callers' tests have room at each of them. `find` over
// the range was measured slower.
pub fn first_that<F: Fn(usize) -> bool>(at: usize, end: usize, test: F) -> Option<usize>
    requires { (i : ℕ) → at ≤ i → i < end → F.pre test i }
    ensures { FirstThat (F.post test) at end result }
{
    for i in at..end {
        if test(i) {
            return Some(i);
        }
    }
    None
}
