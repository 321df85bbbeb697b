use crate::input::read_text;
use crate::no_case::NoCase;
use std::io;

// Runs each line of a text, and says the number, which begins at 1, of each that gives no case.
fn run_lines<F: FnMut(&str) -> Result<(), NoCase>>(
    rt: &HostRuntime,
    text: &str,
    mut run: F,
) -> io::Result<()>
    requires { F.IsAlwaysCallable run }
{
    for (i, line) in text.lines().enumerate() {
        let number = i.saturating_add(1);
        match run(line) {
            Ok(()) => {}
            Err(NoCase::Form) => println!(rt; "cannot read line {number}")?,
            Err(NoCase::Broken(why)) => return Err(why),
        }
    }
    Ok(())
}

// The same for the lines of standard input.
pub fn run_corpus<F: FnMut(&str) -> Result<(), NoCase> + Drop>(
    rt: &HostRuntime,
    run: F,
) -> io::Result<()>
    requires { F.IsAlwaysCallable run }
{
    match read_text(rt) {
        Ok(text) => run_lines(rt, &text, run),
        Err(why) => println!(rt; "cannot read: {why}"),
    }
}
