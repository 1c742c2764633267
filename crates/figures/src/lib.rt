// The figures of an expression: document 01's k, p and value, and the length of the text it is written as.
#![tactic(auto)]

pub mod joining;

ghost use Rattle.std.specs.Prelude.{◌≡◌};
ghost use Rattle.grammar.specs.Tree.{num};
ghost use Rattle.figures.specs.Code.Figures.{FiguresOf, of_number};

use decimal::decimal_len;

// An expression that is read: where it ends, and its figures.
#[derive(Clone, Copy)]
pub struct Figures {
    pub next: usize,
    pub k: u64,
    pub p: u64,
    pub len: u64,
    pub value: Option<u64>,
}

impl Figures {
    // Those of a number that ends at an offset. Its line is a word of five bytes, the number and a line feed.
    pub fn of_number(n: u64, next: usize) -> Figures
        ensures same { result ≡ of_number n next }
        ensures tree { FiguresOf (num n) result }
    {
        Figures {
            next,
            k: 1,
            p: 1,
            len: 6 + decimal_len(n) as u64,
            value: Some(n),
        }
    }
}
