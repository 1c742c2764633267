// Document 01's number of an answer, with the values that its entry names.
#![tactic(auto)]

ghost use Rattle.std.specs.Prelude.{◌≡◌, ◌≤◌, [], ◌∷◌};
ghost use Rattle.numbered.specs.declared.Numbered.{Numbered};
ghost use Rattle.numbered.specs.Numbered.{plain, carrying, located, unit_numbered, size_numbered, result_numbered};

// Document 01's number stays a number here and below, since C's calls return it. The values stand first among C's eight words, and the
// others are 0.
#[derive(Clone, Copy)]
pub struct Numbered {
    pub number: u64,
    pub words: [u64; 8],
}

// An answer, or a part of one, that document 01 numbers.
pub trait Answer {
    ghost numbered_as: { Self → Numbered };

    fn numbered(self) -> Numbered
        ensures { result ≡ numbered_as self };
}

impl Answer for () {
    ghost numbered_as = { unit_numbered };

    fn numbered(self) -> Numbered {
        plain(0)
    }
}

impl Answer for u64 {
    ghost numbered_as = { size_numbered };

    fn numbered(self) -> Numbered {
        carrying(0, [self])
    }
}

impl Answer for usize {
    ghost numbered_as = { size_numbered };

    fn numbered(self) -> Numbered {
        carrying(0, [self as u64])
    }
}

impl<T: Answer, E: Answer> Answer for Result<T, E> {
    ghost numbered_as = { result_numbered T.numbered_as E.numbered_as };

    fn numbered(self) -> Numbered {
        match self {
            Ok(value) => value.numbered(),
            Err(refusal) => refusal.numbered(),
        }
    }
}

pub fn plain(number: u64) -> Numbered
    ensures { result ≡ plain number }
{
    carrying(number, [])
}

pub fn carrying<const N: usize>(number: u64, values: [u64; N]) -> Numbered
    requires { N ≤ 8 }
    ensures { result ≡ carrying number values.entry }
{
    let mut words = [0; 8];
    words[..N].copy_from_slice(&values);
    Numbered { number, words }
}

// With the place of a key, or the number of a line.
pub fn located(n: Numbered, place: u64) -> Numbered
    ensures { result ≡ located n place }
{
    carrying(n.number, [place])
}
