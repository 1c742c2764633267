// The kind of operation whose word a trimmed line starts with.
#![tactic(auto)]

pub mod word;

ghost use Rattle.std.specs.Prelude.{◌≡◌, ◌==◌, ◌+◌, ◌&&◌, drop, length};
ghost use Rattle.search.specs.First.{prefix_of};
ghost use Rattle.mnemonic.specs.Code.FirstByte.{FirstIs};
ghost use Rattle.mnemonic.specs.Kinds.{head_of};

use base::pick;
use word::stands_at;

// A kind that stands alone; a kind, and the offset of what follows its word and the space; no operation. Three cases, so no `Option` is
// plainer. A kind is the byte that C's buffer holds.
#[derive(Clone, Copy)]
pub enum Head {
    Alone(u8),
    Before(u8, usize),
    Unknown,
}

// By the first byte; the rest of the few words that share it is compared whole.
pub fn classify(t: &[u8]) -> Head
    ensures { result ≡ head_of t.now }
{
    if t.is_empty() {
        return Head::Unknown;
    }
    match t[0] {
        b'P' => pick(stands_at(t, 1, b"ush "), Head::Before(0, 5), Head::Unknown),
        b'A' => pick(ends(t, b"dd"), Head::Alone(1), Head::Unknown),
        b'S' => sub_swap_store(t),
        b'M' => pick(ends(t, b"ul"), Head::Alone(3), Head::Unknown),
        b'D' => div_dup(t),
        b'J' => jumps(t),
        b'E' => pick(ends(t, b"q"), Head::Alone(9), Head::Unknown),
        b'L' => lt_load(t),
        b'C' => pick(ends(t, b"aller"), Head::Alone(13), Head::Unknown),
        b'H' => pick(ends(t, b"alt"), Head::Alone(15), Head::Unknown),
        _ => Head::Unknown,
    }
}

fn sub_swap_store(t: &[u8]) -> Head
    requires { FirstIs 83 t.now }
    ensures { result ≡ head_of t.now }
{
    let store = pick(
        stands_at(t, 1, b"tore "),
        Head::Before(12, 6),
        Head::Unknown,
    );
    let swap = pick(ends(t, b"wap"), Head::Alone(6), store);
    pick(ends(t, b"ub"), Head::Alone(2), swap)
}

fn div_dup(t: &[u8]) -> Head
    requires { FirstIs 68 t.now }
    ensures { result ≡ head_of t.now }
{
    let dup = pick(ends(t, b"up"), Head::Alone(5), Head::Unknown);
    pick(ends(t, b"iv"), Head::Alone(4), dup)
}

fn jumps(t: &[u8]) -> Head
    requires { FirstIs 74 t.now }
    ensures { result ≡ head_of t.now }
{
    let zero = stands_at(t, 1, b"umpIfZero ");
    let if_zero = pick(zero, Head::Before(14, 11), Head::Unknown);
    let not_zero = stands_at(t, 1, b"umpIfNotZero ");
    let conditional = pick(not_zero, Head::Before(8, 14), if_zero);
    pick(stands_at(t, 1, b"ump "), Head::Before(7, 5), conditional)
}

fn lt_load(t: &[u8]) -> Head
    requires { FirstIs 76 t.now }
    ensures { result ≡ head_of t.now }
{
    let load = pick(stands_at(t, 1, b"oad "), Head::Before(11, 5), Head::Unknown);
    pick(ends(t, b"t"), Head::Alone(10), load)
}

// Whether a text is its first byte and this.
fn ends<const N: usize>(t: &[u8], word: &[u8; N]) -> bool
    ensures { result ≡ (prefix_of word.now (drop 1 t.now) && length t.now == N + 1) }
{
    stands_at(t, 1, word) & (t.len() == N + 1)
}
