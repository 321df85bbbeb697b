ghost use Rattle.std.specs.Prelude.{◌≡◌, ◌<◌, length, slice_index};
ghost use Rattle.reader.specs.Commands.{told, read_command, all_told, read_at};

use crate::commands::{Command, Part};
use crate::fault::ScriptFault;
use crate::verbs::Verb;

// The command that begins with the byte at an offset of the script, and the offset after it.
fn read_command<'a>(
    script: &'a [u8],
    at: usize,
    first: u8,
) -> Result<(Command<'a>, usize), ScriptFault>
    requires within { at < length script.now }
    requires there { first ≡ slice_index script.now at }
    ensures { told result ≡ read_command script.now at }
{
    let verb = Verb::try_from(first).map_err(|_| ScriptFault::UnknownCommand(at))?;
    let operands = script[at + 1..]
        .get(..verb.width())
        .ok_or(ScriptFault::CutShort(at))?;
    let command = Command::new(verb, Part { operands, at });
    Ok((command, at + 1 + operands.len()))
}

// The command at an offset and the offset after it; none where the script has no byte.
pub fn read_at<'a>(script: &'a [u8], at: usize) -> Option<Result<(Command<'a>, usize), ScriptFault>>
    ensures { all_told result ≡ read_at script.now at }
{
    let first = script.get(at)?;
    Some(read_command(script, at, *first))
}
