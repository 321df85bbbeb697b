// Runs the script on standard input, and prints a line for each of its commands.
#![tactic(auto)]

use console::scripts::print_lines;
use script::runner::{LONGEST, Runner};
use std::io;
use std::io::Read;
use transcript::laws::{lines_of_commands, lines_promised, reading_laws};

// One byte above the limit tells that a script is too long. What a reader of the lines relies on is the contracts of the laws.
fn main(rt: HostRuntime) -> io::Result<()> {
    reading_laws();
    lines_of_commands();
    lines_promised();
    let mut script = Vec::new(rt.alloc());
    rt.stdin()
        .take(LONGEST as u64 + 1)
        .read_to_end(&mut script)?;
    match Runner::new(rt.alloc(), &script) {
        Ok(mut runner) => print_lines(&rt, &mut runner),
        Err(_) => println!(rt; "no memory"),
    }
}
