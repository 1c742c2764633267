// A line of what the program prints.
use numbered::Answer;
use std::io;

// The example's name, the number of its answer and as many values as go with that, and then entries of a buffer.
pub fn print(
    rt: &impl Print,
    name: &str,
    answer: impl Answer,
    values: usize,
    entries: &[u64],
) -> io::Result<()> {
    let told = answer.numbered();
    print!(rt; "{name} {}", told.number)?;
    for n in told.words.iter().take(values).chain(entries) {
        print!(rt; " {n}")?;
    }
    rt.write_all(b"\n")
}
