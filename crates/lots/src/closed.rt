ghost use Rattle.std.specs.Prelude.{◌≡◌, ◌≤◌};
ghost use Rattle.kinds.specs.Denials.{told};
ghost use Rattle.model.specs.Closed.{Closed, closed_root_call, open_call};
ghost use Rattle.lots.specs.Nodes.{closed_in};

use crate::table::Table;
use kinds::denial::Denial;
use kinds::kind::Kind;
use model::depth::Depth;
use std::marker::Model;

// A lot that is closed: it takes no more records, and each place can be opened. All nodes stand in the table that had the leaves.
#[derive(Drop)]
pub struct ClosedLot<K: Kind> {
    pub(crate) kind: K,
    pub(crate) depth: Depth,
    pub(crate) table: Table<K>,
}

impl<K: Kind> Model for ClosedLot<K> {
    ghost Value = { Closed };

    ghost view = { λ l. closed_in l.depth.levels l.table.nodes.items };
}

impl<K: Kind> ClosedLot<K> {
    // The depth, by which a caller knows how long a path is.
    pub fn depth(&self) -> usize
        ensures exact { result ≡ self.now.depth }
        ensures shallow { result ≤ 8 }
    {
        self.depth.levels()
    }

    // Copies the root.
    pub fn root(&self, out: &mut [u64]) -> Result<(), Denial>
        ensures { (told result, out.new) ≡ closed_root_call K.DIGEST self.now out.old }
    {
        if out.len() != K::DIGEST {
            return Err(Denial::BadBuffer);
        }
        out.copy_from_slice(self.table.read(1).words());
        Ok(())
    }

    // Copies the siblings of the nodes on the way from a place to the root.
    pub fn open(&self, place: u16, out: &mut [u64]) -> Result<(), Denial>
        ensures { (told result, out.new) ≡ open_call K.DIGEST self.now place out.old }
    {
        let place = self.depth.admit(place)?;
        let levels = self.depth();
        if out.len() != levels * K::DIGEST {
            return Err(Denial::BadBuffer);
        }
        self.table.path(levels, self.depth.places() + place, out);
        Ok(())
    }
}
