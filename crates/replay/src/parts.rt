// The parts of a text that have a mark between them.
use search::find_byte;

// The part that has n before it; empty where there are fewer.
pub fn nth(text: &[u8], mark: u8, n: usize) -> &[u8] {
    let mut rest = text;
    for _ in 0..n {
        let Some(end) = find_byte(rest, mark, 0) else {
            return &[];
        };
        rest = &rest[end + 1..];
    }
    match find_byte(rest, mark, 0) {
        Some(end) => &rest[..end],
        None => rest,
    }
}
