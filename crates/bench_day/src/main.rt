// Runs a day at the bench: calls of lots from standard input, each printed with its answer. docs/LOTS.md has the form.
#![tactic(auto)]

mod clashes;
mod command;
mod day;
mod lot;

use crate::day::run;
use console::input::{Unread, read_text};
use std::io;

fn read_and_run(rt: &HostRuntime) -> Result<(), Unread> {
    let text = read_text(rt)?;
    run(rt, &text)
}

fn main(rt: HostRuntime) -> io::Result<()> {
    match read_and_run(&rt) {
        Ok(()) => Ok(()),
        Err(why) => println!(rt; "cannot read: {why}"),
    }
}
