// Lists of numbers: a comma between them, `n*v` being n times v; `-` is the empty one.
use crate::number;
use std::alloc::{AllocError, Global};
use std::fmt;

// Longer lists are cut off here; no call is lent as much.
pub const LONGEST: usize = 65540;

#[derive(Clone, Copy)]
pub struct List<'a, T>(pub &'a [T]);

impl<T: fmt::Display + PartialEq> fmt::Display for List<'_, T> {
    fn fmt<W: fmt::Write>(&self, f: &mut fmt::Formatter<W>) -> fmt::Result {
        if self.0.is_empty() {
            return write!(f, "-");
        }
        for (i, run) in self.0.chunk_by(|a, b| *a == *b).enumerate() {
            if 0 < i {
                write!(f, ",")?;
            }
            if 1 < run.len() {
                write!(f, "{}*", run.len())?;
            }
            if let Some(value) = run.first() {
                write!(f, "{value}")?;
            }
        }
        Ok(())
    }
}

pub fn numbers(alloc: Global, text: &[u8]) -> Result<Vec<u64>, AllocError> {
    let mut numbers = Vec::new(alloc);
    for entry in text.split(|b| *b == b',') {
        let (times, value) = match decimal::from_str(entry) {
            Some(value) => (1, value),
            None => repeated(entry),
        };
        let len = numbers.len().saturating_add(times as usize);
        numbers.resize(len.min(LONGEST), value)?;
    }
    Ok(numbers)
}

// How many times an entry `n*v` has its value; none where there is no star.
fn repeated(entry: &[u8]) -> (u64, u64) {
    let mut parts = entry.split(|b| *b == b'*');
    match (parts.next(), parts.next()) {
        (Some(times), Some(value)) => (number(times), number(value)),
        _ => (0, 0),
    }
}

// The numbers of a list as bytes.
pub fn bytes(alloc: Global, text: &[u8]) -> Result<Vec<u8>, AllocError> {
    let numbers = numbers(alloc, text)?;
    numbers.iter().map(|n| (*n % 256) as u8).collect(alloc)
}
