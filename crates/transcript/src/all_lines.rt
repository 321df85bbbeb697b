ghost use Rattle.std.specs.Prelude.{◌≡◌, IfOk};
ghost use Rattle.transcript.specs.Transcripts.{transcript};

use crate::laws::{lines_of_commands, lines_promised};
use script::runner::Runner;
use std::alloc::{AllocError, Global};

// All lines of a script. What a reader of them relies on is the contracts of the two laws.
pub fn whole(heap: Global, script: &[u8]) -> Result<Vec<u8>, AllocError>
    ensures { IfOk result (λ v. v.items ≡ transcript script.now) }
{
    lines_of_commands();
    lines_promised();
    let mut all = Vec::new(heap);
    let mut runner = Runner::new(heap, script)?;
    let mut line = [0u8; 1024];
    while let Ok(Some(n)) = runner.next_line(&mut line) {
        all.extend_from_slice(&line[..n])?;
    }
    Ok(all)
}
