// The first occurrence of a byte, and of a byte string, in a slice starting at an offset.
// Whole blocks of offsets are passed by tests that have no branch and compile to vector code.
// Offsets stay beside the slice, since the contracts speak of places in the whole text.
#![tactic(auto)]

ghost use Rattle.std.specs.Prelude.{◌≡◌, [], ◌∷◌, true, ◌+◌, ◌≤◌, length, drop};
ghost use Rattle.std.specs.Option.{option_or};
ghost use Rattle.std.specs.List.{prefix_len};
ghost use Rattle.search.specs.First.{prefix_of, first_at};
ghost use Rattle.base.specs.Code.Without.{without};
ghost use Rattle.base.specs.Code.Scan.{FirstThat};
ghost use Rattle.search.specs.Code.Scan.{RoomAtEach, is_at};

use base::{any_at, first_that, lacks, pick};

// How many offsets a block has.
const BLOCK: usize = 16;

// A byte that is near is found quicker by the plain loop, so the blocks start behind the first.
pub fn find_byte(s: &[u8], b: u8, at: usize) -> Option<usize>
    ensures { result ≡ first_at (b ∷ []) s.now at }
{
    if s.len() <= at {
        return None;
    }
    let near = at + BLOCK.min(s.len() - at);
    byte_before(s, b, at, near).or_else(|| find_by_blocks(s, b, near))
}

// The same where the byte is likely to be farther: whole blocks of 64 first.
pub fn find_far_byte(s: &[u8], b: u8, at: usize) -> Option<usize>
    ensures { result ≡ first_at (b ∷ []) s.now at }
{
    if s.len() <= at {
        return None;
    }
    let (blocks, _) = s[at..].as_chunks::<64>();
    for (n, block) in blocks.iter().enumerate() {
        if let Some(k) = place_in(block, b) {
            return Some(at + 64 * n + k);
        }
    }
    find_byte(s, b, at + 64 * blocks.len())
}

// The first place of b in a block. The minimum has no branch, and compiles to vector code: `zip` with the range in a fold took 5 to 18
// times the time, `contains` and then `position` up to 1.9 times.
fn place_in(block: &[u8; 64], b: u8) -> Option<usize>
    ensures { FirstThat (is_at b block.now) 0 64 result }
{
    let mut least = 64;
    for k in 0..64u8 {
        least = pick(block[usize::from(k)] == b, k, 64).min(least);
    }
    (least < 64).then_some(usize::from(least))
}

// For a text from an offset on, where nothing is left past its end; from 0, the method says it.
pub fn starts_with(s: &[u8], p: &[u8], at: usize) -> bool
    ensures { result ≡ prefix_of p.now (drop at s.now) }
{
    s[at.min(s.len())..].starts_with(p)
}

// The empty string occurs at once, as `str::find` has it.
pub fn find(s: &[u8], p: &[u8], at: usize) -> Option<usize>
    ensures { result ≡ first_at p.now s.now at }
{
    let last = s.len().checked_sub(p.len())?;
    if last < at {
        return None;
    }
    match p {
        [] => Some(at),
        [b] => find_by_blocks(s, *b, at),
        _ => find_string(s, p, at),
    }
}

// The blocks without b are passed.
fn find_by_blocks(s: &[u8], b: u8, at: usize) -> Option<usize>
    requires { at ≤ length s.now }
    ensures { result ≡ first_at (b ∷ []) s.now at }
{
    let (blocks, _) = s[at..].as_chunks::<BLOCK>();
    byte_before(s, b, at + BLOCK * blocks_without(blocks, b), s.len())
}

// How many blocks come before the first that has b.
fn blocks_without(blocks: &[[u8; BLOCK]], b: u8) -> usize
    ensures few { result ≤ length blocks.now }
    ensures without { result ≡ prefix_len (without b) blocks.now }
{
    blocks
        .iter()
        .take_while(|block| lacks(&block[..], b))
        .count()
}

// The first offset before end at which b stands.
fn byte_before(s: &[u8], b: u8, at: usize, end: usize) -> Option<usize>
    requires { (at ≤ end) × (end ≤ length s.now) }
    ensures { first_at (b ∷ []) s.now at ≡ option_or result (first_at (b ∷ []) s.now end) }
{
    let k = s[at..end].iter().position(|a| *a == b)?;
    Some(at + k)
}

// A block at which p may stand is tried place by place, and so is what is left behind the last one. The room that is asked for here and
// below is a fact of offsets, which differ from call to call, so no struct can hold it.
fn find_string(s: &[u8], p: &[u8], at: usize) -> Option<usize>
    requires { RoomAtEach p.now s.now at (at + 1) }
    ensures { result ≡ first_at p.now s.now at }
{
    let stop = s.len() - p.len() + 1;
    let blocks = (stop - at) / BLOCK;
    // By `step_by` an invariant has to say that the offsets go by whole blocks, so it is no plainer.
    for n in 0..blocks {
        let i = at + BLOCK * n;
        if any_at(i, BLOCK, |k| agrees(s, p, k)) {
            if let Some(j) = string_before(s, p, i, i + BLOCK) {
                return Some(j);
            }
        }
    }
    string_before(s, p, at + BLOCK * blocks, stop)
}

// Whether the first, the middle and the last byte of p stand where they do if p stands at an offset.
fn agrees(s: &[u8], p: &[u8], at: usize) -> bool
    requires { RoomAtEach p.now s.now at (at + 1) }
    ensures { prefix_of p.now (drop at s.now) ≡ true → result ≡ true }
{
    let middle = p.len() / 2;
    let last = p.len() - 1;
    (s[at] == p[0]) & (s[at + last] == p[last]) & (s[at + middle] == p[middle])
}

// The first offset before end at which p stands.
fn string_before(s: &[u8], p: &[u8], at: usize, end: usize) -> Option<usize>
    requires { RoomAtEach p.now s.now at end }
    ensures { first_at p.now s.now at ≡ option_or result (first_at p.now s.now end) }
{
    first_that(at, end, |i| stands(s, p, i))
}

// Whether p stands at an offset that has room for it. The first byte is tried first. `starts_with` calls a function, and was measured
// slower.
fn stands(s: &[u8], p: &[u8], at: usize) -> bool
    requires { RoomAtEach p.now s.now at (at + 1) }
    ensures { result ≡ prefix_of p.now (drop at s.now) }
{
    s[at] == p[0] && p.iter().eq(&s[at..at + p.len()])
}
