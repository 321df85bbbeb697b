// The calls at one station, each a step of the machine.
ghost use Rattle.std.specs.Prelude.{◌≡◌, ℕ, IfOk};
ghost use Rattle.kinds.specs.Denials.{told};
ghost use Rattle.model.specs.Lots.{idle};
ghost use Rattle.stations.specs.Machine.{shown, begin_step, feed_step, seal_step, abandon_step, Sealed};

use crate::phase::Phase;
use crate::record::Record;
use crate::station::Station;
use kinds::denial::Denial;
use kinds::kind::Kind;
use sponge::digest::{is_bad_length, start_for};
use sponge::hash::Digest;
use sponge::sponge::Sponge;

impl Station {
    pub(crate) fn new() -> Station
        ensures { (c w : ℕ) → shown c w result ≡ idle }
    {
        Station { phase: Phase::Idle }
    }

    pub(crate) fn begin<K: Kind>(&mut self, place: usize, length: usize) -> Result<(), Denial>
        ensures { (shown K.CAPACITY K.DIGEST self.new, told result) ≡ begin_step K.CAPACITY K.DIGEST K.mapping place length (shown K.CAPACITY K.DIGEST self.old) }
    {
        if is_bad_length(length) {
            return Err(Denial::BadLength);
        }
        match self.phase {
            Phase::Idle => {
                self.phase = Phase::Filling(Record {
                    place,
                    length,
                    got: 0,
                    sponge: Sponge::start::<K>(start_for::<K>(length)),
                });
                Ok(())
            }
            Phase::Filling(_) | Phase::Full(_) => Err(Denial::StationBusy),
        }
    }

    pub(crate) fn feed<K: Kind>(&mut self, kind: &K, words: &[u64]) -> Result<(), Denial>
        ensures { (shown K.CAPACITY K.DIGEST self.new, told result) ≡ feed_step K.CAPACITY K.DIGEST K.mapping words.now (shown K.CAPACITY K.DIGEST self.old) }
    {
        match &mut self.phase {
            Phase::Idle => Err(Denial::StationIdle),
            Phase::Full(record) => record.feed(kind, words),
            Phase::Filling(record) => {
                record.feed(kind, words)?;
                if record.got >= record.length {
                    self.phase = Phase::Full(*record);
                }
                Ok(())
            }
        }
    }

    // The place of the record in hand, and its digest.
    pub(crate) fn seal<K: Kind>(&mut self, kind: &K) -> Result<(usize, Digest<K>), Denial>
        ensures step { (shown K.CAPACITY K.DIGEST self.new, told result) ≡ seal_step (shown K.CAPACITY K.DIGEST self.old) }
        ensures sealed { IfOk result (λ r. Sealed K.CAPACITY K.DIGEST K.mapping (shown K.CAPACITY K.DIGEST self.old) r.0 r.1) }
    {
        match self.phase {
            Phase::Idle => Err(Denial::StationIdle),
            Phase::Filling(_) => Err(Denial::RecordShort),
            Phase::Full(record) => {
                self.phase = Phase::Idle;
                Ok((record.place, record.sponge.finish(kind)))
            }
        }
    }

    pub(crate) fn abandon<K: Kind>(&mut self) -> Result<(), Denial>
        ensures { (shown K.CAPACITY K.DIGEST self.new, told result) ≡ abandon_step (shown K.CAPACITY K.DIGEST self.old) }
    {
        match self.phase {
            Phase::Idle => Err(Denial::StationIdle),
            Phase::Filling(_) | Phase::Full(_) => {
                self.phase = Phase::Idle;
                Ok(())
            }
        }
    }
}
