// A lot by script.
ghost use Rattle.std.specs.Prelude.{◌≡◌, ◌≢◌};
ghost use Rattle.transcript.specs.Transcripts.{transcript};
ghost use Rattle.ffi.specs.Scripts.{lines_told};

use ffi::script_calls::script_lines_code;
use std::alloc::Global;

// All lines of a script, at the front of `out`; C passes nothing for `heap`.
#[unsafe(no_mangle)]
pub extern "C" fn script_lines(
    heap: Global,
    script: &[u8],
    out: &mut [u8],
    written: &mut usize,
) -> u8
    ensures done { result ≢ 201 → (result, written.new, out.new) ≡ lines_told (transcript script.now) out.old }
    ensures no_memory { result ≡ 201 → (written.new ≡ written.old) × (out.new ≡ out.old) }
{
    script_lines_code(heap, script, out, written)
}
