// The lines of a text, one after the other, by their offsets.
// Offsets stay beside the slice, since the contracts speak of places in the whole text.
#![tactic(auto)]

ghost use Rattle.std.specs.Prelude.{◌≡◌, ◌+◌, ◌-◌, ◌<◌, ◌≤◌, length, drop};
ghost use Rattle.std.specs.Iterator.{at_most};
ghost use Rattle.lines.specs.Cursor.{line_at, first_line};
ghost use Rattle.lines.specs.Code.Visits.{feed_from, GivesLine};

use base::Span;

// Where a line's text stands; the line after it starts at next.
#[derive(Clone, Copy)]
pub struct Line {
    pub text: Span,
    pub next: usize,
}

// The lines of a text from an offset on, one after the other.
#[derive(Drop)]
pub struct Lines<'a> {
    pub text: &'a [u8],
    pub at: usize,
}

impl<'a> Iterator for Lines<'a> {
    type Item = Line;

    ghost next_gives = { λ s r t. GivesLine s.text.now s.at r t.text.now t.at };

    ghost remaining = { λ s. at_most (length s.text.now - s.at) };

    fn next(&mut self) -> Option<Line> {
        let line = line_at(self.text, self.at)?;
        self.at = line.next;
        Some(line)
    }
}

// The line that starts at an offset. The first one starts at 0, each other where the one before says.
pub fn line_at(s: &[u8], at: usize) -> Option<Line>
    ensures { result ≡ line_at s.now at }
{
    if s.len() <= at {
        return None;
    }
    let feed = line_feed(s, at);
    if feed == s.len() {
        let text = Span {
            start: at,
            end: feed,
        };
        return Some(Line { text, next: feed });
    }
    let text = Span {
        start: at,
        end: before_return(s, at, feed),
    };
    Some(Line {
        text,
        next: feed + 1,
    })
}

// The offset of the first line feed at or after an offset, or the text's end where there is none.
pub fn line_feed(s: &[u8], at: usize) -> usize
    ensures { result ≡ feed_from s.now at }
{
    search::find_far_byte(s, b'\n', at).unwrap_or(s.len())
}

// Where the line ends that a line feed ends: a carriage return right before that is left out.
fn before_return(s: &[u8], at: usize, feed: usize) -> usize
    requires { (at ≤ feed) × ((feed < length s.now) × (feed ≡ feed_from s.now at)) }
    ensures { result ≡ at + length (first_line (drop at s.now)) }
{
    let returned = at < feed && s[feed - 1] == b'\r';
    if returned { feed - 1 } else { feed }
}
