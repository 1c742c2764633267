// A case: a line of standard input, whose fields have a space between them.
ghost use Rattle.std.specs.Prelude.{◌≤◌};

use crate::{hex, list, number, parts};
use std::alloc::{AllocError, Global};

#[derive(Clone, Copy)]
pub struct Case<'a>(pub &'a [u8]);

impl<'a> Case<'a> {
    // Whether document 01 or 02 answers, and not the original.
    pub fn is_of_document(self) -> bool {
        self.0.first() == Some(&b'd')
    }

    pub fn letter(self) -> Option<u8> {
        self.0.get(2).copied()
    }

    // The field that has i before it; a call's arguments are the fields from 2 on. Empty where there are fewer.
    fn field(self, i: usize) -> &'a [u8] {
        parts::nth(self.0, b' ', i)
    }

    pub fn number(self, i: usize) -> u64 {
        number(self.field(i))
    }

    // The length of a lent buffer, which has at most `most`.
    pub fn length(self, i: usize, most: usize) -> usize
        ensures { result ≤ most }
    {
        (self.number(i) as usize).min(most)
    }

    // The field in one of three forms, each with a reader of its own: one method for all is no plainer. A text ends where the lent buffer
    // does.
    pub fn text<'b>(self, i: usize, buffer: &'b mut [u8]) -> &'b [u8] {
        hex::decode(self.field(i), buffer)
    }

    // A text of `most` bytes at most, in memory of its own: a buffer as long would be cleared for each case.
    pub fn long_text(self, alloc: Global, i: usize, most: usize) -> Result<Vec<u8>, AllocError> {
        let digits = self.field(i);
        let mut bytes = vec![in alloc; 0; most.min(digits.len() / 2)]?;
        let len = hex::decode(digits, &mut bytes).len();
        bytes.truncate(len);
        Ok(bytes)
    }

    pub fn numbers(self, alloc: Global, i: usize) -> Result<Vec<u64>, AllocError> {
        list::numbers(alloc, self.field(i))
    }

    pub fn bytes(self, alloc: Global, i: usize) -> Result<Vec<u8>, AllocError> {
        list::bytes(alloc, self.field(i))
    }
}
