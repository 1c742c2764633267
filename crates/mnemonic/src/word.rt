// Whether a word stands at an offset of a text.
// The offset stays beside the slice, since the room behind it is part of what is tested.
ghost use Rattle.std.specs.Prelude.{◌≡◌, true, drop};
ghost use Rattle.std.specs.List.{fold, zip};
ghost use Rattle.search.specs.First.{prefix_of};
ghost use Rattle.mnemonic.specs.Code.Agree.{and_same};

// After a test of the room that is left, a word is compared with no branch, so LLVM compares it by machine words.
pub fn stands_at<const N: usize>(t: &[u8], at: usize, word: &[u8; N]) -> bool
    ensures { result ≡ prefix_of word.now (drop at t.now) }
{
    if t.len() < at || t.len() - at < N {
        return N == 0;
    }
    agree(&t[at..at + N], word)
}

fn agree<const N: usize>(part: &[u8], word: &[u8; N]) -> bool
    ensures { result ≡ fold and_same true (zip part.now word.now) }
{
    part.iter()
        .zip(word)
        .fold(true, |same, (a, b)| same & (*a == *b))
}
