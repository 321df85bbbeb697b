ghost use Rattle.std.specs.Prelude.{◌≡◌, ◌+◌, ◌*◌, ◌%◌, ◌<◌};
ghost use Rattle.field.specs.Field.{p, Elements};
ghost use Rattle.sponge.specs.Digests.{filling};
ghost use Rattle.sponge.specs.Streams.{fed, fed_all, begun, finished, held, Fair};

use crate::hash::Digest;
use crate::sponge::Sponge;
use field::element::Element;
use kinds::kind::Kind;

// One element into a state that has `at` elements of its block; how many it has then.
fn overwrite<K: Kind>(kind: &K, state: &mut [u64], at: usize, word: u64) -> usize
    requires fair { Fair K.CAPACITY K.DIGEST (state.old, at) }
    requires small { word < p }
    ensures { (state.new, result) ≡ fed K.CAPACITY K.DIGEST K.mapping (state.old, at) word }
{
    state[K::CAPACITY + at] = word;
    if at + 1 == K::rate() {
        kind.mix(state);
        0
    } else {
        at + 1
    }
}

impl Sponge {
    // A sponge whose capacity element 0 is `first`.
    pub fn start<K: Kind>(first: Element) -> Sponge
        ensures { held K.CAPACITY K.DIGEST result ≡ begun K.CAPACITY K.DIGEST first.word }
    {
        let mut state = [0u64; 16];
        state[0] = first.word;
        Sponge { state, filled: 0 }
    }

    // One element more.
    pub fn absorb<K: Kind>(&mut self, kind: &K, element: Element)
        ensures { held K.CAPACITY K.DIGEST self.new ≡ fed K.CAPACITY K.DIGEST K.mapping (held K.CAPACITY K.DIGEST self.old) element.word }
    {
        let m = K::state_len();
        let at = self.filled % K::rate();
        self.filled = overwrite(kind, &mut self.state[0..m], at, element.word);
    }

    // Elements, one by one.
    pub fn absorb_all<K: Kind>(&mut self, kind: &K, words: &[u64])
        requires { Elements words.now }
        ensures { held K.CAPACITY K.DIGEST self.new ≡ fed_all K.CAPACITY K.DIGEST K.mapping (held K.CAPACITY K.DIGEST self.old) words.now }
    {
        for x in words {
            self.absorb(kind, Element { word: *x });
        }
    }

    // Fills the last block up, if one is begun.
    fn fill_up<K: Kind>(&mut self, kind: &K)
        ensures { held K.CAPACITY K.DIGEST self.new ≡ fed_all K.CAPACITY K.DIGEST K.mapping (held K.CAPACITY K.DIGEST self.old) (filling K.DIGEST (held K.CAPACITY K.DIGEST self.old).1) }
    {
        let r = K::rate();
        let at = self.filled % r;
        // A record that ends where a block does is not filled up.
        if at == 0 {
            return;
        }
        self.absorb(kind, Element { word: 1 });
        for _ in at + 1..r {
            self.absorb(kind, Element { word: 0 });
        }
    }

    // Fills the last block up, and gives the digest.
    pub fn finish<K: Kind>(mut self, kind: &K) -> Digest<K>
        ensures { result ≡ finished K.CAPACITY K.DIGEST K.mapping (held K.CAPACITY K.DIGEST self) }
    {
        self.fill_up(kind);
        Digest::cut(&self.state[..K::state_len()])
    }
}
