// Bytes in hexadecimal, two digits each, in lower case; `-` is the empty text. The kit's crate `hex` refuses a text that isn't whole,
// and here the digits in front count.
ghost use Rattle.std.specs.Prelude.{◌<◌, ◌≤◌, length, IfSome};

use std::fmt;

#[derive(Clone, Copy)]
pub struct Hex<'a>(pub &'a [u8]);

impl fmt::Display for Hex<'_> {
    fn fmt<W: fmt::Write>(&self, f: &mut fmt::Formatter<W>) -> fmt::Result {
        if self.0.is_empty() {
            return write!(f, "-");
        }
        for b in self.0 {
            write!(f, "{b:02x}")?;
        }
        Ok(())
    }
}

// The bytes that the digits in front write, as many as the buffer holds. They are counted first: written at once, the count is an
// invariant of the loop.
pub fn decode<'a>(digits: &[u8], buffer: &'a mut [u8]) -> &'a [u8]
    ensures { length result.now ≤ length buffer.old }
{
    let (pairs, _) = digits.as_chunks::<2>();
    let len = pairs
        .iter()
        .take(buffer.len())
        .take_while(|pair| digit(pair[0]).is_some() && digit(pair[1]).is_some())
        .count();
    let bytes = &mut buffer[..len];
    for (byte, pair) in bytes.iter_mut().zip(pairs) {
        *byte = value(pair[0]) * 16 + value(pair[1]);
    }
    bytes
}

fn digit(b: u8) -> Option<u8>
    ensures { IfSome result (λ d. d < 16) }
{
    match b {
        b'0'..=b'9' => Some(b - b'0'),
        b'a'..=b'f' => Some(b - b'a' + 10),
        _ => None,
    }
}

fn value(b: u8) -> u8
    ensures { result < 16 }
{
    digit(b).unwrap_or(0)
}
