// A part of a text, by the places where it starts and ends.
ghost use Rattle.std.specs.Prelude.{◌≡◌, ◌+◌, ◌^◌, ◌<◌};

#[derive(Clone, Copy, Debug, PartialEq, Eq)]
pub struct Span {
    pub start: usize,
    pub end: usize,
}

impl Span {
    // The same part, where a text stands that starts at an offset of another. Its callers have the part of a slice of a lent text, and
    // the offset at which that slice starts: so the sums are places of that text.
    pub fn behind(self, at: usize) -> Span
        requires { (at + self.start < 2 ^ 64) × (at + self.end < 2 ^ 64) }
        ensures { result ≡ record { start = at + self.start; end = at + self.end } }
    {
        Span {
            start: at + self.start,
            end: at + self.end,
        }
    }
}
