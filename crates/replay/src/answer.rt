// What a call answers.
use numbered::Numbered;
use std::fmt;

// An answer's number, and its values up to the last that isn't 0.
#[derive(Clone, Copy)]
pub struct Told(pub Numbered);

impl fmt::Display for Told {
    fn fmt<W: fmt::Write>(&self, f: &mut fmt::Formatter<W>) -> fmt::Result {
        write!(f, "{}", self.0.number)?;
        for word in values(&self.0.words) {
            write!(f, " {word}")?;
        }
        Ok(())
    }
}

fn values(words: &[u64]) -> &[u64] {
    match words.iter().rposition(|word| *word != 0) {
        Some(last) => &words[..=last],
        None => &[],
    }
}
