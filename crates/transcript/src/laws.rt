ghost use Rattle.transcript.specs.Laws.{ReadingLaws};
ghost use Rattle.transcript.specs.Lots.{LinesOfCommands};
ghost use Rattle.transcript.specs.Promised.{LinesPromised};

use kinds::drill::Drill;
use model::lot_laws;
use promises::promises;
use rpo_kinds::rpo128::Rpo128;
use rpo_kinds::rpo160::Rpo160;

// The laws of a reading stand.
#[tactic(auto, using(crate::proofs::Reading::reading_laws))]
pub fn reading_laws()
    ensures { ReadingLaws }
{}

// A script has one line for each of its commands, told by the lot that the calls of the commands before it leave.
#[tactic(auto, using(crate::proofs::Commands::lines_of_commands))]
pub fn lines_of_commands()
    ensures { LinesOfCommands }
{}

// What is promised of lots reaches these lines, whichever of the three kinds a script names.
pub fn lines_promised()
    ensures { LinesPromised }
{
    lot_laws::<Drill>();
    lot_laws::<Rpo128>();
    lot_laws::<Rpo160>();
    promises::<Drill>();
    promises::<Rpo128>();
    promises::<Rpo160>();
}
