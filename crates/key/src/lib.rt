// The first place of a key in double quotes. Blocks of places are passed by a test that has no branch. What it costs to try places one by
// one is bounded: beyond the bound the search is that of Knuth, Morris and Pratt, so that no key takes more than linear time in a vector of
// an assembly. A key of quotes alone has a search of its own.
#![tactic(auto)]

ghost use Rattle.std.specs.Prelude.{◌≡◌, true, false, ◌+◌, ◌<◌, ◌≤◌, length, drop};
ghost use Rattle.std.specs.List.{suffix_len};
ghost use Rattle.base.specs.Code.Skips.{Skips};
ghost use Rattle.search.specs.First.{prefix_of, first_at};
ghost use Rattle.key.specs.Key.{quoted};
ghost use Rattle.key.specs.Code.Marked.{Quotes, Marks, FirstBefore, Other, Holds, of_quotes};

use base::{any_at, first_that};

// How many offsets a block has.
const BLOCK: usize = 16;

// How many places are tried one by one where the key may stand.
const NEAR: usize = 32;

// A longer key doesn't fit the pattern's array.
const MOST: usize = 65534;

// A key that is sought in double quotes, and the offset from which on there is no room for it.
#[derive(Clone, Copy)]
struct Sought<'a> {
    s: &'a [u8],
    key: &'a [u8],
    stop: usize,
    ghost room: { stop + length key.now + 1 ≡ length s.now },
}

// A byte of the key in double quotes, and its place there. It is no part of `Sought`, since a key that is found near needs none.
#[derive(Clone, Copy)]
pub struct Mark {
    pub place: usize,
    pub byte: u8,
}

pub fn find_quoted(s: &[u8], key: &[u8]) -> Option<usize>
    ensures { result ≡ first_at (quoted key.now) s.now 0 }
{
    let stop = s.len().checked_sub(key.len() + 1)?;
    let sought = Sought { s, key, stop };
    if NEAR < key.len() {
        return sought.find_by_blocks(0);
    }
    let near = NEAR.min(stop);
    if let Some(i) = sought.find_before(0, near) {
        return Some(i);
    }
    sought.find_by_blocks(near)
}

// An offset differs from call to call, so `at ≤ stop` is asked of each, and is no fact of the struct.
impl<'a> Sought<'a> {
    // To try the near places of a block costs at most 32 comparisons for each byte of the key. It is done as often as makes 4 comparisons
    // for each byte of s, and some. The step varies, so the loop is a `while`.
    fn find_by_blocks(self, at: usize) -> Option<usize>
        requires { at ≤ self.stop }
        ensures { result ≡ first_at (quoted self.entry.key.now) self.entry.s.now at }
    {
        let mark = mark_of(self.key);
        let mut left = self.s.len() / 8 + 128;
        let mut i = at;
        while BLOCK <= self.stop - i {
            if self.any_agrees(mark, i, BLOCK) {
                if mark.place == 0 {
                    return self.find_quotes(i);
                }
                if left < self.key.len() {
                    return self.find_far(i);
                }
                left -= self.key.len();
                let end = i + NEAR.min(self.stop - i);
                if let Some(j) = self.find_before(i, end) {
                    return Some(j);
                }
                i = end;
            } else {
                i += BLOCK;
            }
        }
        self.find_last(mark, left, i)
    }

    // The offsets behind the last whole block.
    fn find_last(self, mark: Mark, left: usize, at: usize) -> Option<usize>
        requires { (at ≤ self.stop) × Marks self.key.now mark }
        ensures { result ≡ first_at (quoted self.entry.key.now) self.entry.s.now at }
    {
        if !self.any_agrees(mark, at, self.stop - at) {
            return None;
        }
        if mark.place == 0 {
            return self.find_quotes(at);
        }
        if left < self.key.len() {
            return self.find_far(at);
        }
        self.find_before(at, self.stop)
    }

    // The first place of a key of quotes alone. It stands at no place whose window, as long as the key in double quotes, has another byte.
    // No byte is read more than twice. The step varies, so the loop is a `while`.
    fn find_quotes(self, at: usize) -> Option<usize>
        requires { (at ≤ self.stop) × Quotes (quoted self.key.now) 0 (length self.key.now + 2) }
        ensures { result ≡ first_at (quoted self.entry.key.now) self.entry.s.now at }
    {
        let mut i = at;
        while i < self.stop {
            let end = i + self.key.len() + 2;
            match last_other(self.s, i, end) {
                Some(j) => i = j + 1,
                None => return Some(i),
            }
        }
        None
    }

    // Whether the key agrees at one of the n places from a place on.
    fn any_agrees(self, mark: Mark, at: usize, n: usize) -> bool
        requires { (at + n ≤ self.stop) × Marks self.key.now mark }
        ensures { result ≡ false → Skips (first_at (quoted self.entry.key.now) self.entry.s.now) at (at + n) }
    {
        any_at(at, n, |i| self.agrees(mark, i))
    }

    // Whether both quotes and the mark stand where they do if the key stands in double quotes at a place.
    fn agrees(self, mark: Mark, at: usize) -> bool
        requires { (at < self.stop) × Marks self.key.now mark }
        ensures { prefix_of (quoted self.entry.key.now) (drop at self.entry.s.now) ≡ true → result ≡ true }
    {
        let s = self.s;
        let closing = at + (self.key.len() + 1);
        (s[at] == b'"') & (s[closing] == b'"') & (s[at + mark.place] == mark.byte)
    }

    // The first place before end at which the key stands in double quotes.
    fn find_before(self, at: usize, end: usize) -> Option<usize>
        requires { (at ≤ end) × (end ≤ self.stop) }
        ensures { FirstBefore self.entry.s.now self.entry.key.now at end result }
    {
        first_that(at, end, |i| self.stands(i))
    }

    // Whether the key stands in double quotes at a place. Keys are short: `==` calls a function, and was measured slower.
    fn stands(self, at: usize) -> bool
        requires { at < self.stop }
        ensures { result ≡ prefix_of (quoted self.entry.key.now) (drop at self.entry.s.now) }
    {
        let (s, key) = (self.s, self.key);
        let start = at + 1;
        let closing = start + key.len();
        (s[at] == b'"') & (s[closing] == b'"') && key.iter().eq(&s[start..closing])
    }

    // The pattern and the table of its shifts take 192 KiB of stack. A key that doesn't fit is tried at each place: no vector of an
    // assembly has room for one.
    fn find_far(self, at: usize) -> Option<usize>
        requires { at ≤ self.stop }
        ensures { result ≡ first_at (quoted self.entry.key.now) self.entry.s.now at }
    {
        let (s, key) = (self.s, self.key);
        if MOST < key.len() {
            return self.find_before(at, self.stop);
        }
        let mut pattern = [0u8; 65536];
        put_quoted(&mut pattern, key);
        kmp::find(s, &pattern[..key.len() + 2], at)
    }
}

// The last byte of the key that is no quote, or the quote before the key.
fn mark_of(key: &[u8]) -> Mark
    ensures { Marks key.now result }
{
    match last_other(key, 0, key.len()) {
        Some(k) => Mark {
            place: k + 1,
            byte: key[k],
        },
        None => Mark {
            place: 0,
            byte: b'"',
        },
    }
}

// The last offset starting at an offset and before end at which no quote stands.
fn last_other(s: &[u8], from: usize, end: usize) -> Option<usize>
    requires { (from ≤ end) × (end ≤ length s.now) }
    ensures { Other s.now from end result }
{
    let quotes = quotes_start(s, from, end);
    let k = s[from..quotes].iter().rposition(|c| *c != b'"')?;
    Some(from + k)
}

// Quotes alone stand there and up to end: whole blocks of them are passed.
fn quotes_start(s: &[u8], from: usize, end: usize) -> usize
    requires { (from ≤ end) × (end ≤ length s.now) }
    ensures { (from ≤ result) × (result ≤ end) × Quotes s.now result end }
{
    let (_, blocks) = s[from..end].as_rchunks::<BLOCK>();
    end - BLOCK * last_quotes(blocks)
}

// How many of the last blocks are of quotes alone.
fn last_quotes(blocks: &[[u8; BLOCK]]) -> usize
    ensures few { result ≤ length blocks.now }
    ensures quotes { result ≡ suffix_len of_quotes blocks.now }
{
    blocks
        .iter()
        .rev()
        .take_while(|block| **block == [b'"'; BLOCK])
        .count()
}

// Writes a key in double quotes.
fn put_quoted(pattern: &mut [u8; 65536], key: &[u8])
    requires { (length key.now ≤ 65534) × (length pattern.old ≡ 65536) }
    ensures { Holds pattern.new key.now }
{
    let n = key.len();
    pattern[0] = b'"';
    pattern[1..n + 1].copy_from_slice(key);
    pattern[n + 1] = b'"';
}
