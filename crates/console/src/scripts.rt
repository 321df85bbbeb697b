ghost use Rattle.std.specs.Prelude.{◌≡◌, None, IfOk};
ghost use Rattle.script.specs.Runs.{next_command};

use script::runner::Runner;
use std::io;
use std::io::Write;

// Prints the line of each command of a script that is left, until there is none.
pub fn print_lines(rt: &HostRuntime, runner: &mut Runner<'_>) -> io::Result<()>
    ensures { IfOk result (λ done. next_command runner.new ≡ None) }
{
    let mut line = [0u8; 1024];
    while let Ok(Some(n)) = runner.next_line(&mut line) {
        rt.stdout().write_all(&line[..n])?;
    }
    Ok(())
}
