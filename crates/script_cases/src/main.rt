// Runs the scripts of standard input, one to a line, and prints the lines of each and then `end`. Its stored output comes from
// an independent model; reference/make_scripts.py makes both files and has the form of a line.
#![tactic(auto)]

mod parts;

use crate::parts::read_script;
use console::corpus::run_corpus;
use console::no_case::NoCase;
use console::scripts::print_lines;
use script::runner::Runner;
use std::io;

// All lines of a script, and then `end`.
fn run_script(rt: &HostRuntime, script: &[u8]) -> io::Result<()> {
    match Runner::new(rt.alloc(), script) {
        Ok(mut runner) => {
            print_lines(rt, &mut runner)?;
            println!(rt; "end")
        }
        Err(_) => println!(rt; "no memory"),
    }
}

fn run_line(rt: &HostRuntime, text: &str) -> Result<(), NoCase> {
    Ok(run_script(rt, &read_script(rt.alloc(), text)?)?)
}

fn main(rt: HostRuntime) -> io::Result<()> {
    run_corpus(&rt, |text| run_line(&rt, text))
}
