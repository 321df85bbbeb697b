use console::output::{Refused, Words};
use kinds::denial::Denial;
use std::io;

// A denial, and whether it left its buffer.
pub(crate) fn show_denial(rt: &impl Print, why: Denial, kept: bool) -> io::Result<()> {
    if kept {
        println!(rt; "{}", Refused(why))
    } else {
        println!(rt; "no {why} changed")
    }
}

// The line of an answer, from the buffer as it was before the call and as the call left it.
pub(crate) fn report(
    rt: &impl Print,
    answer: Result<(), Denial>,
    before: &[u64],
    after: &[u64],
) -> io::Result<()> {
    match answer {
        Ok(()) => {
            let words = Words(after);
            println!(rt; "{words}")
        }
        Err(why) => show_denial(rt, why, before == after),
    }
}
