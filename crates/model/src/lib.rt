// The laws of a lot over whole runs, and the depth of a tree. The calls that keep to the laws are in the crates above.
#![tactic(auto)]

pub mod depth;

ghost use Rattle.model.specs.Laws.{LotLaws, ClosedLaws};
ghost use Rattle.model.specs.Promises.{Order};

use kinds::kind::Kind;

// After any calls, a lot of any kind keeps the last record of each place, and its answers, closed or not, are told by the history.
pub fn lot_laws<K: Kind>()
    ensures { LotLaws K.CAPACITY K.DIGEST K.mapping }
{}

// A closed lot of any kind has the nodes of its tree, and writes the tree value and the path of each place.
#[tactic(auto, using(crate::proofs::Heaps::closed_laws))]
pub fn closed_laws<K: Kind>()
    ensures { ClosedLaws K.CAPACITY K.DIGEST K.mapping }
{}

// The order in which stations work reaches no root and no path.
pub fn order_law<K: Kind>()
    ensures { Order K.CAPACITY K.DIGEST K.mapping }
{}
