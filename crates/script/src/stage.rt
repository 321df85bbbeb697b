ghost use Rattle.std.specs.Prelude.{◌≡◌};
ghost use Rattle.turns.specs.Answers.{line_left, line_told};
ghost use Rattle.script.specs.Stages.{act, start_in, close_in, run_in, phase_in};
ghost use Rattle.script.specs.Shown.{shown_stage};

use crate::any::{AnyClosed, AnyLot};
use crate::waiting::Waiting;
use lines::writing::ok_line;
use reader::fault::ScriptFault;
use reader::orders::Order;
use reader::phases::Phase;
use std::mem;
use turns::answers::ScriptLine;

// How far the reading has come, with the lot that it has then.
#[derive(Drop)]
pub enum Stage {
    Before(Waiting),
    Filling(AnyLot),
    Closed(AnyClosed),
    Ended,
}

impl Stage {
    // The phase that a command has to be in; none once the reading has ended.
    pub(crate) fn phase(&self) -> Option<Phase>
        ensures { result ≡ phase_in (shown_stage self.now) }
    {
        match self {
            Stage::Before(_) => Some(Phase::Before),
            Stage::Filling(_) => Some(Phase::Filling),
            Stage::Closed(_) => Some(Phase::Closed),
            Stage::Ended => None,
        }
    }

    fn start(
        &mut self,
        kind: u8,
        depth: u8,
        at: usize,
        line: &mut ScriptLine,
    ) -> Result<(), ScriptFault>
        ensures after { shown_stage self.new ≡ (start_in (shown_stage self.old) kind depth at).0 }
        ensures line { line_told (line_left result line.new) at ≡ (start_in (shown_stage self.old) kind depth at).1 }
    {
        let Stage::Before(lots) = mem::replace(self, Stage::Ended) else {
            return Err(ScriptFault::OutOfPhase(at));
        };
        *self = Stage::Filling(lots.start(kind, depth, at)?);
        ok_line(line);
        Ok(())
    }

    fn close(&mut self, at: usize, line: &mut ScriptLine) -> Result<(), ScriptFault>
        ensures after { shown_stage self.new ≡ (close_in (shown_stage self.old) at).0 }
        ensures line { line_told (line_left result line.new) at ≡ (close_in (shown_stage self.old) at).1 }
    {
        let Stage::Filling(lot) = mem::replace(self, Stage::Ended) else {
            return Err(ScriptFault::OutOfPhase(at));
        };
        *self = Stage::Closed(lot.close());
        ok_line(line);
        Ok(())
    }

    // A command that leaves the phase as it is.
    fn run(&mut self, order: Order, at: usize, line: &mut ScriptLine) -> Result<(), ScriptFault>
        ensures after { shown_stage self.new ≡ (run_in (shown_stage self.old) order at).0 }
        ensures line { line_told (line_left result line.new) at ≡ (run_in (shown_stage self.old) order at).1 }
    {
        match self {
            Stage::Filling(lot) => lot.fill(order, at, line),
            Stage::Closed(lot) => lot.ask(order, at, line),
            _ => {
                *self = Stage::Ended;
                return Err(ScriptFault::OutOfPhase(at));
            }
        }
        Ok(())
    }

    // Runs a command that is in its phase.
    #[tactic(auto, unfolding(crate::specs::Stages::act))]
    pub(crate) fn act(
        &mut self,
        order: Order,
        at: usize,
        line: &mut ScriptLine,
    ) -> Result<(), ScriptFault>
        ensures after { shown_stage self.new ≡ (act (shown_stage self.old) order at).0 }
        ensures line { line_told (line_left result line.new) at ≡ (act (shown_stage self.old) order at).1 }
    {
        match order {
            Order::Start { kind, depth } => self.start(kind, depth, at, line),
            Order::Close => self.close(at, line),
            _ => self.run(order, at, line),
        }
    }
}
