ghost use Rattle.std.specs.Prelude.{◌≡◌, ◌≤◌, IfErr};
ghost use Rattle.kinds.specs.Denials.{told};
ghost use Rattle.stations.specs.Phases.{busy_with};
ghost use Rattle.stations.specs.Machine.{feed_step};

use crate::record::Record;
use kinds::denial::Denial;
use kinds::kind::Kind;
use kinds::words::admit;

impl Record {
    // Takes all of the words or none.
    pub(crate) fn feed<K: Kind>(&mut self, kind: &K, words: &[u64]) -> Result<(), Denial>
        ensures step { (busy_with K.CAPACITY K.DIGEST self.new, told result) ≡ feed_step K.CAPACITY K.DIGEST K.mapping words.now (busy_with K.CAPACITY K.DIGEST self.old) }
        ensures kept { IfErr result (λ why. self.new ≡ self.old) }
        ensures length { self.new.length ≡ self.old.length }
        ensures more { self.old.got ≤ self.new.got }
    {
        admit(0, words)?;
        if self.length - self.got < words.len() {
            return Err(Denial::RecordFull);
        }
        self.sponge.absorb_all(kind, words);
        self.got += words.len();
        Ok(())
    }
}
