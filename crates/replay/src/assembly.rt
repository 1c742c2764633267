// The assembler. The lent buffer holds 170 before the call.
use crate::answer::Told;
use crate::case::Case;
use crate::hex::Hex;
use crate::list::List;
use numbered::Answer;
use std::io;

// Longer contracts, vectors and stems are cut off here; no call accepts as much.
const LONGEST: usize = 65540;

const LONGEST_STEM: usize = 256;

// The output, and the rest of the buffer. It is no part of its caller's code: there its arrays would be a part of every case's frame.
#[inline(never)]
pub fn replay(rt: &(impl Print + AllocGlobal), case: Case) -> io::Result<()> {
    let contract = case.long_text(rt.alloc(), 2, LONGEST)?;
    let vector = case.long_text(rt.alloc(), 3, LONGEST)?;
    let mut stem = [0; LONGEST_STEM];
    let stem = case.text(4, &mut stem);
    let mut out = [170u8; 16384];
    let answer = assembler::assemble(&contract, &vector, stem, &mut out);
    let written = match answer {
        Ok(assembly) => assembly.written.min(out.len()),
        Err(_) => 0,
    };
    print!(rt;
        "{} | {} | {}",
        Told(answer.numbered()),
        Hex(&out[..written]),
        List(&out[written..])
    )
}
