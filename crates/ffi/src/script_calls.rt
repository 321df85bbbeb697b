// A lot by script: all lines of a script at once.
ghost use Rattle.std.specs.Prelude.{◌≡◌, ◌≢◌, length, IfOk, IfErr};
ghost use Rattle.kinds.specs.Denials.{told};
ghost use Rattle.transcript.specs.Transcripts.{transcript};
ghost use Rattle.ffi.specs.Codes.{code_of};
ghost use Rattle.ffi.specs.Scripts.{lines_told};

use crate::code::code;
use kinds::denial::Denial;
use std::alloc::{AllocError, Global};
use transcript::all_lines::whole;

// What is answered where no memory can be had.
pub const NO_MEMORY: u8 = 201;

// Copies lines to the front of the buffer.
fn put(lines: &[u8], out: &mut [u8]) -> Result<(), Denial>
    ensures { (code_of (told result), length lines.now, out.new) ≡ lines_told lines.now out.old }
{
    let n = lines.len();
    if out.len() < n {
        return Err(Denial::BadBuffer);
    }
    out[..n].copy_from_slice(lines);
    Ok(())
}

// The same of all lines of a script; `written` is then how many bytes they have, also where the buffer is too short.
fn put_lines(
    heap: Global,
    script: &[u8],
    out: &mut [u8],
    written: &mut usize,
) -> Result<u8, AllocError>
    ensures done { IfOk result (λ answer. (answer, written.new, out.new) ≡ lines_told (transcript script.now) out.old) }
    ensures kept { IfErr result (λ why. (written.new ≡ written.old) × (out.new ≡ out.old)) }
{
    let lines = whole(heap, script)?;
    *written = lines.len();
    Ok(code(put(&lines, out)))
}

pub fn script_lines_code(heap: Global, script: &[u8], out: &mut [u8], written: &mut usize) -> u8
    ensures done { result ≢ 201 → (result, written.new, out.new) ≡ lines_told (transcript script.now) out.old }
    ensures no_memory { result ≡ 201 → (written.new ≡ written.old) × (out.new ≡ out.old) }
{
    put_lines(heap, script, out, written).unwrap_or(NO_MEMORY)
}
