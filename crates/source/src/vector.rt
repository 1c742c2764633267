// The vector's numbers.
ghost use Rattle.std.specs.Prelude.{◌≡◌};
ghost use Rattle.numbered.specs.Numbered.{Answered};
ghost use Rattle.decimal.specs.Decimal.{digit};
ghost use Rattle.source.specs.Vector.{of_digits, vector_number, key_error_numbered, key_value_numbered};
ghost use Rattle.base.specs.Lists.{take_while};

use decimal::digits_at;
use key::find_quoted;
use numbered::{Answer, Numbered, plain};
use search::find_byte;
use trim::trim_start;

#[derive(Clone, Copy, Debug, PartialEq, Eq)]
pub enum KeyError {
    NoKey,
    NoColon,
    NoDigit,
    TooLarge,
}

impl Answer for KeyError {
    ghost numbered_as = { key_error_numbered };

    fn numbered(self) -> Numbered {
        match self {
            KeyError::NoKey => plain(8),
            KeyError::NoColon => plain(9),
            KeyError::NoDigit => plain(10),
            KeyError::TooLarge => plain(11),
        }
    }
}

pub fn json_u64_for_key(vector: &[u8], key: &[u8]) -> Result<u64, KeyError>
    ensures { Answered key_value_numbered (vector_number vector.now key.now) result }
{
    let at = find_quoted(vector, key).ok_or(KeyError::NoKey)?;
    let colon = find_byte(vector, b':', at + (key.len() + 2)).ok_or(KeyError::NoColon)?;
    leading_number(trim_start(&vector[colon + 1..]))
}

// The number that a text starts with.
fn leading_number(text: &[u8]) -> Result<u64, KeyError>
    ensures { result ≡ of_digits (take_while digit text.now) }
{
    let run = digits_at(text, 0);
    if run.len == 0 {
        return Err(KeyError::NoDigit);
    }
    run.value.ok_or(KeyError::TooLarge)
}
