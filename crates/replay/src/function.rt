// Where a contract's function is found, its body and its parameters.
use crate::answer::Told;
use crate::hex::Hex;
use numbered::Answer;
use source::function::find_function;
use source::parameters::Parameters;
use std::io;

pub fn print(rt: &impl Print, contract: &[u8]) -> io::Result<()> {
    let answer = find_function(contract);
    match answer {
        Ok(places) => {
            print!(rt;
                "0 | {}",
                Hex(&contract[places.body.start..places.body.end])
            )?;
            parameters(rt, &contract[..places.params.end], places.params.start)
        }
        Err(e) => rt.print(Told(e.numbered())),
    }
}

// The names of the parameters of a text from a place on.
fn parameters(rt: &impl Print, text: &[u8], at: usize) -> io::Result<()> {
    for name in (Parameters { text, at }) {
        print!(rt; " | {}", Hex(&text[name.start..name.end]))?;
    }
    Ok(())
}
