// A text without the White_Space at its start and its end, as a part of what was lent.
#![tactic(auto)]

ghost use Rattle.std.specs.Prelude.{◌≡◌, ◌-◌, ◌≤◌, ◌<◌, length, get_or, drop};
ghost use Rattle.std.specs.List.{prefix_len};
ghost use Rattle.base.specs.Lists.{all};
ghost use Rattle.base.specs.Part.{Part};
ghost use Rattle.trim.specs.Trim.{start_trimmed, end_trimmed, trimmed, leading_blanks, white1, white2, white3};
ghost use Rattle.trim.specs.Code.Trims.{White, WhiteLen, LastWhiteLen};
ghost use Rattle.trim.specs.Code.Blank.{BlankLen, blanks_end};

use base::in_range;

// How many bytes a block has.
const BLOCK: usize = 16;

pub fn trim<'a>(s: &'a [u8]) -> &'a [u8]
    ensures { Part s.entry result (leading_blanks s.now) (trimmed s.now) }
{
    trim_end(trim_start(s))
}

// Blocks of White_Space of one byte are passed at once: byte by byte, a vector with 60,000 blanks took 1.4 of the time that it took before.
pub fn trim_start<'a>(s: &'a [u8]) -> &'a [u8]
    ensures { Part s.entry result (leading_blanks s.now) (start_trimmed s.now) }
{
    let mut i = skip_white(s);
    // A character has one byte to three, so no iterator is plainer; so too in the two loops below.
    while let Some(n) = white_len(&s[i..]) {
        i += n;
    }
    &s[i..]
}

// How many bytes of White_Space of one byte are passed by whole blocks. Most texts are short, so the blocks are no part of this code.
fn skip_white(s: &[u8]) -> usize
    ensures { White s.now result }
{
    if s.len() < BLOCK {
        return 0;
    }
    skip_blocks(s)
}

#[inline(never)]
fn skip_blocks(s: &[u8]) -> usize
    ensures { White s.now result }
{
    let (blocks, _) = s.as_chunks::<BLOCK>();
    BLOCK * white_blocks(blocks)
}

// How many blocks of White_Space of one byte come first.
fn white_blocks(blocks: &[[u8; BLOCK]]) -> usize
    ensures few { result ≤ length blocks.now }
    ensures white { result ≡ prefix_len (all white1) blocks.now }
{
    blocks
        .iter()
        .take_while(|block| all_white(&block[..]))
        .count()
}

// No branch: it compiles to vector code.
fn all_white(block: &[u8]) -> bool
    ensures { result ≡ all white1 block.now }
{
    block.iter().fold(true, |white, a| white & is_white1(*a))
}

pub fn trim_end<'a>(s: &'a [u8]) -> &'a [u8]
    ensures { Part s.entry result 0 (end_trimmed s.now) }
{
    let mut e = s.len();
    while let Some(n) = last_white_len(&s[..e]) {
        e -= n;
    }
    &s[..e]
}

// Where the White_Space ends that stands from a position on: that of one byte but line feeds, and that of three. The position stays beside
// the slice, since the contract speaks of places in the whole text.
pub fn blanks_end(s: &[u8], at: usize) -> usize
    ensures { result ≡ blanks_end s.now at }
{
    if s.len() < at {
        return at;
    }
    let mut i = at;
    while let Some(n) = blank_len(&s[i..]) {
        i += n;
    }
    i
}

// How many bytes the one of these has that a text starts with, where it starts with one.
#[tactic(auto, using(crate::proofs::Blanks::blank_ascii, crate::proofs::Blanks::blank_feed, crate::proofs::Blanks::blank_short))]
fn blank_len(s: &[u8]) -> Option<usize>
    ensures { BlankLen s.now result }
{
    match s {
        [a, ..] if is_white1(*a) && *a != b'\n' => Some(1),
        [a, ..] if *a <= 0x7F => None,
        [a, b, c, ..] if is_white3(*a, *b, *c) => Some(3),
        _ => None,
    }
}

// How many bytes the White_Space character has that a text starts with, where there is one.
#[tactic(auto, using(crate::proofs::Laws::start_ascii))]
fn white_len(s: &[u8]) -> Option<usize>
    ensures { WhiteLen s.now result }
{
    match s {
        [a, ..] if is_white1(*a) => Some(1),
        [a, ..] if *a <= 0x7F => None,
        [a, b, ..] if is_white2(*a, *b) => Some(2),
        [a, b, c, ..] if is_white3(*a, *b, *c) => Some(3),
        _ => None,
    }
}

// How many bytes the White_Space character has that a text ends with, where there is one.
#[tactic(auto, using(crate::proofs::Steps::last_other, crate::proofs::Steps::last_two, crate::proofs::Steps::last_three, crate::proofs::Steps::last_none))]
fn last_white_len(s: &[u8]) -> Option<usize>
    ensures { LastWhiteLen s.now result }
{
    match s {
        [.., c] if is_white1(*c) => Some(1),
        [.., c] if !in_range(0x80, 0xBF, *c) => None,
        [.., b, c] if is_white2(*b, *c) => Some(2),
        [.., a, b, c] if is_white3(*a, *b, *c) => Some(3),
        _ => None,
    }
}

// No branch, so that a test of a block compiles to vector code; of a pattern LLVM makes a table of bits and a shift for each byte.
fn is_white1(a: u8) -> bool
    ensures { result ≡ white1 a }
{
    in_range(0x09, 0x0D, a) | (a == b' ')
}

// Its bytes one by one, as a slice's pattern binds them: an array of them would be taken apart at once. So too in `is_white3`.
fn is_white2(a: u8, b: u8) -> bool
    ensures { result ≡ white2 a b }
{
    matches!((a, b), (0xC2, 0x85 | 0xA0))
}

fn is_white3(a: u8, b: u8, c: u8) -> bool
    ensures { result ≡ white3 a b c }
{
    matches!(
        (a, b, c),
        (0xE1, 0x9A, 0x80)
            | (0xE2, 0x80, 0x80..=0x8A | 0xA8..=0xA9 | 0xAF)
            | (0xE2, 0x81, 0x9F)
            | (0xE3, 0x80, 0x80)
    )
}
