ghost use Rattle.std.specs.Prelude.{◌≡◌, [], IfOk};
ghost use Rattle.kinds.specs.Denials.{told};
ghost use Rattle.model.specs.Calls.{making, begin as beginning, feed as feeding, feed_eight as feeding_eight, seal as sealing, abandon as abandoning, clear as clearing, root as rooting};
ghost use Rattle.model.specs.Lots.{Lot as ModelLot, newly_made, step};
ghost use Rattle.model.specs.Closed.{closed};
ghost use Rattle.stations.specs.Tables.{all_shown};

use crate::closed::ClosedLot;
use crate::leaves::Leaves;
use kinds::denial::Denial;
use kinds::kind::Kind;
use model::depth::Depth;
use sponge::hash::Digest;
use stations::slot::Slot;
use stations::table::Stations;
use std::alloc::{AllocError, Global};
use std::marker::Model;

// A lot while it is filled. After `new` nothing allocates, and no call asks anything of its caller.
#[derive(Drop)]
pub struct Lot<K: Kind> {
    kind: K,
    leaves: Leaves<K>,
    stations: Stations,
}

// Nothing stale shows: 2^depth leaves, and idle stations bare.
impl<K: Kind> Model for Lot<K> {
    ghost Value = { ModelLot };

    ghost view = { λ l. record { depth = l.leaves.0; leaves = l.leaves.1; stations = all_shown K.CAPACITY K.DIGEST l.stations } };
}

impl<K: Kind> Lot<K> {
    // Makes the lot anew, with 2^depth empty places.
    pub fn make(&mut self, depth: u8) -> Result<(), Denial>
        ensures { (self.new, told result, []) ≡ step K.CAPACITY K.DIGEST K.mapping self.old (making depth) }
    {
        let depth = Depth::try_from(depth)?;
        self.leaves.make(depth);
        self.stations = Stations::new::<K>();
        Ok(())
    }

    // Begins a record of that length for a place.
    pub fn begin(&mut self, station: u8, place: u16, length: u16) -> Result<(), Denial>
        ensures { (self.new, told result, []) ≡ step K.CAPACITY K.DIGEST K.mapping self.old (beginning station place length) }
    {
        let slot = Slot::try_from(station)?;
        let place = self.leaves.depth().admit(place)?;
        self.stations.begin::<K>(slot, place, length as usize)
    }

    pub fn feed(&mut self, station: u8, word: u64) -> Result<(), Denial>
        ensures { (self.new, told result, []) ≡ step K.CAPACITY K.DIGEST K.mapping self.old (feeding station word) }
    {
        let slot = Slot::try_from(station)?;
        self.stations.feed(slot, &self.kind, &[word])
    }

    // Eight words, all or none.
    pub fn feed_eight(&mut self, station: u8, words: &[u64; 8]) -> Result<(), Denial>
        ensures { (self.new, told result, []) ≡ step K.CAPACITY K.DIGEST K.mapping self.old (feeding_eight station words.now) }
    {
        let slot = Slot::try_from(station)?;
        self.stations.feed(slot, &self.kind, words)
    }

    // Puts the digest of the record in hand at its place.
    pub fn seal(&mut self, station: u8) -> Result<(), Denial>
        ensures { (self.new, told result, []) ≡ step K.CAPACITY K.DIGEST K.mapping self.old (sealing station) }
    {
        let slot = Slot::try_from(station)?;
        let (place, digest) = self.stations.seal(slot, &self.kind)?;
        self.leaves.store(place, digest);
        Ok(())
    }

    // Drops the record in hand.
    pub fn abandon(&mut self, station: u8) -> Result<(), Denial>
        ensures { (self.new, told result, []) ≡ step K.CAPACITY K.DIGEST K.mapping self.old (abandoning station) }
    {
        let slot = Slot::try_from(station)?;
        self.stations.abandon::<K>(slot)
    }

    // Empties a place.
    pub fn clear(&mut self, place: u16) -> Result<(), Denial>
        ensures { (self.new, told result, []) ≡ step K.CAPACITY K.DIGEST K.mapping self.old (clearing place) }
    {
        let place = self.leaves.depth().admit(place)?;
        self.leaves.store(place, Digest::zeros());
        Ok(())
    }

    // Writes the tree value.
    pub fn root(&self, out: &mut [u64]) -> Result<(), Denial>
        ensures { (self.now, told result, out.new) ≡ step K.CAPACITY K.DIGEST K.mapping self.now (rooting out.old) }
    {
        if out.len() != K::DIGEST {
            return Err(Denial::BadBuffer);
        }
        self.leaves.root(&self.kind, out);
        Ok(())
    }

    // Ends the filling: records in hand are abandoned, and all nodes are worked out, in the table that had the leaves.
    pub fn close(self) -> ClosedLot<K>
        ensures { result ≡ closed K.CAPACITY K.DIGEST K.mapping self }
    {
        let Lot {
            kind,
            leaves,
            stations: _,
        } = self;
        leaves.close(kind)
    }
}

impl<K: Kind + Drop> Lot<K> {
    // An empty lot of depth 0.
    pub fn new(heap: Global, kind: K) -> Result<Lot<K>, AllocError>
        ensures { IfOk result (λ l. l ≡ newly_made K.DIGEST 0) }
    {
        let leaves = Leaves::new(heap)?;
        Ok(Lot {
            kind,
            leaves,
            stations: Stations::new::<K>(),
        })
    }
}
