// Digests one record that comes on standard input, and says what it does. docs/DIGEST.md has the form of the input.
#![tactic(auto)]

mod explained;
mod input;
mod report;

use crate::input::{Input, parse};
use crate::report::report;
use console::input::{Unread, read_text};
use kinds::drill::Drill;
use rpo_kinds::names::KindName;
use rpo_kinds::rpo128::Rpo128;
use rpo_kinds::rpo160::Rpo160;
use std::io;

fn run(rt: &HostRuntime) -> Result<Input, Unread> {
    let text = read_text(rt)?;
    parse(rt.alloc(), &text)
}

fn main(rt: HostRuntime) -> io::Result<()> {
    match run(&rt) {
        Ok(Input { kind, words }) => match kind {
            KindName::Drill => report(&rt, &Drill, kind, &words),
            KindName::Rpo128 => report(&rt, &Rpo128::new(), kind, &words),
            KindName::Rpo160 => report(&rt, &Rpo160::new(), kind, &words),
        },
        Err(why) => println!(rt; "cannot read: {why}"),
    }
}
