ghost use Rattle.std.specs.Prelude.{◌≡◌, replicate, IfOk, slice_index_or};
ghost use Rattle.kinds.specs.Denials.{told};
ghost use Rattle.model.specs.Lots.{idle};
ghost use Rattle.stations.specs.Machine.{begin_step, feed_step, seal_step, abandon_step, Sealed};
ghost use Rattle.stations.specs.Tables.{all_shown, at_one};

use crate::slot::Slot;
use crate::station::Station;
use kinds::denial::Denial;
use kinds::kind::Kind;
use sponge::hash::Digest;

// The eight stations of a lot. Each call borrows one of them and leaves the other seven.
#[derive(Clone, Copy)]
pub struct Stations {
    table: [Station; 8],
}

impl Stations {
    // Eight idle stations.
    pub fn new<K: Kind>() -> Stations
        ensures { all_shown K.CAPACITY K.DIGEST result ≡ replicate 8 idle }
    {
        let one = Station::new();
        Stations { table: [one; 8] }
    }

    pub fn begin<K: Kind>(&mut self, slot: Slot, place: usize, length: usize) -> Result<(), Denial>
        ensures { (all_shown K.CAPACITY K.DIGEST self.new, told result) ≡ at_one (all_shown K.CAPACITY K.DIGEST self.old) slot (begin_step K.CAPACITY K.DIGEST K.mapping place length) }
    {
        self.table[slot.index()].begin::<K>(place, length)
    }

    // Takes all of the words or none.
    pub fn feed<K: Kind>(&mut self, slot: Slot, kind: &K, words: &[u64]) -> Result<(), Denial>
        ensures { (all_shown K.CAPACITY K.DIGEST self.new, told result) ≡ at_one (all_shown K.CAPACITY K.DIGEST self.old) slot (feed_step K.CAPACITY K.DIGEST K.mapping words.now) }
    {
        self.table[slot.index()].feed(kind, words)
    }

    // The place of the record in hand at a station, and its digest.
    pub fn seal<K: Kind>(&mut self, slot: Slot, kind: &K) -> Result<(usize, Digest<K>), Denial>
        ensures step { (all_shown K.CAPACITY K.DIGEST self.new, told result) ≡ at_one (all_shown K.CAPACITY K.DIGEST self.old) slot seal_step }
        ensures sealed { IfOk result (λ r. Sealed K.CAPACITY K.DIGEST K.mapping (slice_index_or (all_shown K.CAPACITY K.DIGEST self.old) slot idle) r.0 r.1) }
    {
        self.table[slot.index()].seal(kind)
    }

    pub fn abandon<K: Kind>(&mut self, slot: Slot) -> Result<(), Denial>
        ensures { (all_shown K.CAPACITY K.DIGEST self.new, told result) ≡ at_one (all_shown K.CAPACITY K.DIGEST self.old) slot abandon_step }
    {
        self.table[slot.index()].abandon::<K>()
    }
}
