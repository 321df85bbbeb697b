ghost use Rattle.std.specs.Prelude.{◌≡◌};
ghost use Rattle.turns.specs.Answers.{line_left, line_told};
ghost use Rattle.turns.specs.Turns.{filled};

use crate::answers::{ScriptLine, answer_line, written};
use kinds::kind::Kind;
use lines::writing::{Heading, ok_line};
use lots::lot::Lot;
use reader::fault::ScriptFault;
use reader::orders::Order;

// Runs a command that is in its phase.
#[tactic(auto, unfolding(crate::specs::Turns::filled))]
fn try_fill<K: Kind>(
    lot: &mut Lot<K>,
    order: Order,
    at: usize,
    line: &mut ScriptLine,
) -> Result<(), ScriptFault>
    ensures after { lot.new ≡ (filled K.CAPACITY K.DIGEST K.mapping lot.old order at).0 }
    ensures line { line_told (line_left result line.new) at ≡ (filled K.CAPACITY K.DIGEST K.mapping lot.old order at).1 }
{
    let answer = match order {
        Order::Begin {
            station,
            place,
            length,
        } => lot.begin(station, place, length),
        Order::Feed { station, word } => lot.feed(station, word),
        Order::FeedEight { station, words } => lot.feed_eight(station, &words),
        Order::Seal { station } => lot.seal(station),
        Order::Abandon { station } => lot.abandon(station),
        Order::Clear { place } => lot.clear(place),
        Order::Root => return written(Heading::Root, K::DIGEST, |out| lot.root(out), line),
        _ => return Err(ScriptFault::OutOfPhase(at)),
    };
    answer?;
    ok_line(line);
    Ok(())
}

// The same, with the line of a refusal in place of the error.
pub fn fill<K: Kind>(lot: &mut Lot<K>, order: Order, at: usize, line: &mut ScriptLine)
    ensures after { lot.new ≡ (filled K.CAPACITY K.DIGEST K.mapping lot.old order at).0 }
    ensures line { line.new ≡ (filled K.CAPACITY K.DIGEST K.mapping lot.old order at).1 }
{
    let answer = try_fill(lot, order, at, line);
    answer_line(answer, at, line);
}
