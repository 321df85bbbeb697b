// The buyer's side: says of an opening whether it fits the root, or of two openings of one place which clash they show.
// docs/OPENINGS.md has the form of the input.
#![tactic(auto)]

mod answer;
mod question;
mod said;

use crate::answer::answer;
use crate::question::{Question, read_question};
use console::input::{Unread, read_text};
use std::io;

fn read(rt: &HostRuntime) -> Result<Question, Unread> {
    let text = read_text(rt)?;
    read_question(rt.alloc(), &text)
}

fn main(rt: HostRuntime) -> io::Result<()> {
    match read(&rt) {
        Ok(question) => println!(rt; "{}", answer(&question)),
        Err(why) => println!(rt; "cannot read: {why}"),
    }
}
