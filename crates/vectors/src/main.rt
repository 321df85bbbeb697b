// Runs the cases of standard input, one to a line, and writes an answer to each. Its stored output comes from an
// independent model, reference/rpo_reference.py; reference/make_vectors.py makes both files and has the form of a line.
#![tactic(auto)]

mod calls;
mod cases;
mod opened;
mod report;

use crate::calls::{Kinds, run_case};
use crate::cases::read_case;
use crate::opened::run_opened;
use console::corpus::run_corpus;
use console::no_case::NoCase;
use std::io;

// One line. What begins with '#' is a heading, which is written as it is.
fn run_line(rt: &HostRuntime, kinds: &Kinds, text: &str) -> Result<(), NoCase> {
    if text.starts_with('#') {
        return Ok(println!(rt; "{text}")?);
    }
    if text.starts_with("check ") || text.starts_with("find ") {
        return run_opened(rt, kinds, text);
    }
    Ok(run_case(rt, kinds, &read_case(rt.alloc(), text)?)?)
}

fn main(rt: HostRuntime) -> io::Result<()> {
    let kinds = Kinds::new();
    run_corpus(&rt, |text| run_line(&rt, &kinds, text))
}
