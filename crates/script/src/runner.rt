ghost use Rattle.std.specs.Prelude.{◌≡◌, ℕ, List, IfOk};
ghost use Rattle.reader.specs.Commands.{told, all_told};
ghost use Rattle.script.specs.Runs.{Run, fresh, next_command, turn, next_line, Promised};
ghost use Rattle.script.specs.Shown.{shown_stage};

use crate::stage::Stage;
use crate::waiting::Waiting;
use kinds::denial::Denial;
use reader::commands::Command;
use reader::fault::ScriptFault;
use reader::orders::Order;
use reader::reading::read_at;
use std::alloc::{AllocError, Global};
use std::marker::Model;
use turns::answers::{ScriptLine, answer_line};

// No script may have more bytes.
pub const LONGEST: usize = 65536;

// A script that is being run: the offset of the next command, and the lot so far.
#[derive(Drop)]
pub struct Runner<'a> {
    script: &'a [u8],
    at: usize,
    stage: Stage,
    // The line in hand, whose memory is used anew for each.
    line: ScriptLine,
}

// Clauses see the run that it has in hand.
impl<'a> Model for Runner<'a> {
    ghost Value = { Run };

    ghost view = { λ r. record { script = r.script.now; at = r.at; stage = shown_stage r.stage } };
}

// Runs a command, or ends the reading at a fault of the script, and makes the line of it.
#[tactic(auto, unfolding(crate::specs::Runs::turn))]
fn turn(
    at: &mut usize,
    stage: &mut Stage,
    next: Result<(Command<'_>, usize), ScriptFault>,
    line: &mut ScriptLine,
)
    ensures after { (script : List ℕ) → record { script = script; at = at.new; stage = shown_stage stage.new } ≡ (turn (record { script = script; at = at.old; stage = shown_stage stage.old }) (told next.entry)).0 }
    ensures line { (script : List ℕ) → line.new ≡ (turn (record { script = script; at = at.old; stage = shown_stage stage.old }) (told next.entry)).1 }
{
    let here = *at;
    let answer = match next {
        Ok((command, after)) => {
            *at = after;
            stage.act(Order::from(command), here, line)
        }
        Err(fault) => {
            *stage = Stage::Ended;
            Err(fault)
        }
    };
    answer_line(answer, here, line);
}

impl<'a> Runner<'a> {
    // A runner at the start of a script. Nothing later takes memory.
    pub fn new(heap: Global, script: &'a [u8]) -> Result<Runner<'a>, AllocError>
        ensures { IfOk result (λ x. x ≡ fresh script.now) }
    {
        let lots = Waiting::new(heap)?;
        Ok(Runner {
            script,
            at: 0,
            stage: Stage::Before(lots),
            line: ScriptLine::new(),
        })
    }

    // The command that is next, or the fault that stands there; none where the reading is at its end.
    #[tactic(auto, unfolding(crate::specs::Runs::next_command))]
    fn next_command(&self) -> Option<Result<(Command<'a>, usize), ScriptFault>>
        ensures { all_told result ≡ next_command self.now }
    {
        let phase = self.stage.phase()?;
        if self.script.len() > LONGEST {
            return Some(Err(ScriptFault::TooLong));
        }
        let at = self.at;
        let next = read_at(self.script, at)?;
        match next {
            Ok((read, _)) if !phase.allows(read.verb()) => Some(Err(ScriptFault::OutOfPhase(at))),
            _ => Some(next),
        }
    }

    // Writes the next line, and answers how long it is; none where no command is left.
    pub fn next_line(&mut self, out: &mut [u8]) -> Result<Option<usize>, Denial>
        ensures exact { (self.new, out.new, result) ≡ next_line self.old out.old }
        ensures promised { Promised self.old self.new result }
    {
        if out.len() < 1024 {
            return Err(Denial::BadBuffer);
        }
        let Some(next) = self.next_command() else {
            return Ok(None);
        };
        turn(&mut self.at, &mut self.stage, next, &mut self.line);
        let bytes = self.line.as_bytes();
        out[..bytes.len()].copy_from_slice(bytes);
        Ok(Some(bytes.len()))
    }
}
