// The calls that read operations. The lent kinds hold 200 before the call and the operands 77; both are 18 long, whatever part is lent.
use crate::answer::Told;
use crate::case::Case;
use crate::hex::Hex;
use crate::list::List;
use crate::text;
use numbered::Answer;
use std::io;

pub fn replay(rt: &impl Print, case: Case) -> io::Result<()> {
    let mut text = [0; text::LONGEST];
    let text = case.text(4, &mut text);
    let mut kinds = [200u8; 18];
    let mut operands = [77u64; 18];
    let answer = ops::parse_ops(
        text,
        &mut kinds[..case.length(2, 18)],
        &mut operands[..case.length(3, 18)],
    );
    print!(rt;
        "{} | {} | {}",
        Told(answer.numbered()),
        List(&kinds),
        List(&operands)
    )?;
    for line in 0..4 {
        print!(rt; " | {}", Hex(ops::trimmed_line(text, line)))?;
    }
    Ok(())
}
