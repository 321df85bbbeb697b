ghost use Rattle.std.specs.Prelude.{◌≡◌, ◌≤◌, replicate};
ghost use Rattle.std.specs.Fn.{FnOnceReturnsAtMut};
ghost use Rattle.turns.specs.Answers.{offset_of, fault_line, line_left, line_told, Written};

use kinds::denial::Denial;
use lines::line::Line;
use lines::writing::{Heading, no_line};
use reader::fault::ScriptFault;

// A line of a transcript. None has more bytes.
pub type ScriptLine = Line<1024>;

// The offset in the line of a fault of the command at that offset.
fn offset_of(fault: ScriptFault, at: usize) -> usize
    ensures { result ≡ offset_of fault at }
{
    match fault {
        ScriptFault::Denied(_) => at,
        own => own.value().unwrap_or(at),
    }
}

pub fn fault_line(fault: ScriptFault, at: usize, line: &mut ScriptLine)
    ensures { line.new ≡ fault_line fault at }
{
    no_line(fault.number(), fault.layer(), offset_of(fault, at), line);
}

// The line of a command: its own, which is there, or that of the fault in its place.
pub fn answer_line(answer: Result<(), ScriptFault>, at: usize, line: &mut ScriptLine)
    ensures { line.new ≡ line_told (line_left answer line.old) at }
{
    if let Err(fault) = answer {
        fault_line(fault, at, line);
    }
}

// The line of the numbers that a call writes: a path of at most 8 digests of at most 5 words, or a digest.
pub(crate) fn written<F: FnOnce(&mut [u64]) -> Result<(), Denial>>(
    heading: Heading,
    count: usize,
    write: F,
    line: &mut ScriptLine,
) -> Result<(), ScriptFault>
    requires short { count ≤ 40 }
    requires callable { F.IsAlwaysCallable write }
    ensures { Written (λ answer words. FnOnceReturnsAtMut F.FnOnce write (replicate count 0) answer words) heading (line_left result line.new) }
{
    let mut zeros = [0; 40];
    let words = &mut zeros[..count];
    write(words)?;
    heading.line(words, line);
    Ok(())
}
