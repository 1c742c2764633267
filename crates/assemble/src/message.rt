// What the program says of a refusal.
ghost use Rattle.std.specs.Prelude.{◌≡◌, Some};
ghost use Rattle.assemble.specs.Message.{words_of, message};

use numbered::Answer;
use scope::refusal::AssembleError;
use std::fmt;

#[derive(Clone, Copy, Debug, PartialEq, Eq)]
pub struct Message(pub AssembleError);

// A line. The place of `expected` is 0.
impl fmt::Display for Message {
    ghost output = { λ said. Some (message said.0) };

    fn fmt<W: fmt::Write>(&self, f: &mut fmt::Formatter<W>) -> fmt::Result {
        let number = self.0.numbered().number;
        let words = words(number);
        match self.0 {
            AssembleError::Key(_, place) => {
                if place == 0 {
                    return writeln!(f, "assemble: {number}: {words}, key expected");
                }
                writeln!(f, "assemble: {number}: {words}, key {place}")
            }
            AssembleError::NoEquals(n) => writeln!(f, "assemble: {number}: {words}, line {n}"),
            AssembleError::Expression(_, line) | AssembleError::TooLong(line) => {
                writeln!(f, "assemble: {number}: {words}, line {line}")
            }
            _ => writeln!(f, "assemble: {number}: {words}"),
        }
    }
}

// Document 01's words, which it has in a table by the number: over the enums they would be parted among four matches.
fn words(number: u64) -> &'static str
    ensures { result.now ≡ words_of number }
{
    match number {
        1 => "the contract exceeds 65,536 bytes or isn't UTF-8",
        2 => "the vector exceeds 65,536 bytes or isn't UTF-8",
        3 => "\"fn \" is absent",
        4 => "no ( follows \"fn \"",
        5 => "no ) follows the (",
        6 => "no { follows the )",
        7 => "no } follows the {",
        8 => "the key in double quotes is absent from the vector",
        9 => "no : follows the key",
        10 => "no ASCII digit comes next after White_Space",
        11 => "the digit run exceeds 2^64 - 1",
        12 => "a let line has no =",
        13 => "a character of the expression is in no token",
        14 => "the expression ends where a factor or ) is due",
        15 => "another token is where ) is due",
        16 => "a literal met as a factor exceeds 2^64 - 1",
        17 => "the token met as a factor is no (, literal or bound name",
        18 => "a 65th parenthesis is open",
        19 => "tokens are left over",
        20 => "k of this expression exceeds 32,768",
        21 => "a 257th binding is made",
        22 => "no \"return \" line stands in the body",
        23 => "the return value is none",
        24 => "the return value differs from expected",
        25 => "the stem is empty, over 255 bytes, not UTF-8 or holds a line feed",
        26 => "the output is longer than the lent buffer",
        0 | 27.. => "",
    }
}
