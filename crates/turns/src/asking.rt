ghost use Rattle.std.specs.Prelude.{◌≡◌, ◌≤◌};
ghost use Rattle.turns.specs.Answers.{line_left, line_told};
ghost use Rattle.turns.specs.Turns.{asked};

use crate::answers::{ScriptLine, answer_line, written};
use kinds::kind::Kind;
use lines::writing::Heading;
use lots::closed::ClosedLot;
use reader::fault::ScriptFault;
use reader::orders::Order;

// Runs a command that is in its phase.
#[tactic(auto, unfolding(crate::specs::Turns::asked))]
fn try_ask<K: Kind>(
    lot: &ClosedLot<K>,
    order: Order,
    at: usize,
    line: &mut ScriptLine,
) -> Result<(), ScriptFault>
    requires { K.DIGEST ≤ 5 }
    ensures { line_told (line_left result line.new) at ≡ asked K.DIGEST lot.now order at }
{
    match order {
        Order::Root => written(Heading::Root, K::DIGEST, |out| lot.root(out), line),
        Order::Open { place } => {
            let count = lot.depth() * K::DIGEST;
            written(Heading::Path, count, |out| lot.open(place, out), line)
        }
        _ => Err(ScriptFault::OutOfPhase(at)),
    }
}

// The same, with the line of a refusal in place of the error.
pub fn ask<K: Kind>(lot: &ClosedLot<K>, order: Order, at: usize, line: &mut ScriptLine)
    requires { K.DIGEST ≤ 5 }
    ensures { line.new ≡ asked K.DIGEST lot.now order at }
{
    let answer = try_ask(lot, order, at, line);
    answer_line(answer, at, line);
}
