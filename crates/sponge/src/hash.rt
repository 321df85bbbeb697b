ghost use Rattle.std.specs.Prelude.{◌≡◌, ℕ, ◌+◌, ◌*◌, List, take, replicate};
ghost use Rattle.field.specs.Field.{Elements};
ghost use Rattle.kinds.specs.Kinds.{State};
ghost use Rattle.sponge.specs.Digests.{cut};

use kinds::kind::Kind;
use std::marker::{Model, PhantomData};

// A digest of a kind, in room that no kind outgrows. Clauses see its words.
#[derive(Drop)]
pub struct Digest<K: Kind> {
    words: [u64; 7],
    kind: PhantomData<K>,
}

impl<K: Kind> Model for Digest<K> {
    ghost Value = { List ℕ };

    ghost view = { λ d. take K.DIGEST d.words };

    ghost invariant = { λ d. Elements d.words };
}

impl<K: Kind> Digest<K> {
    // The leaf of an empty place.
    pub fn zeros() -> Digest<K>
        ensures { result ≡ replicate K.DIGEST 0 }
    {
        Digest {
            words: [0; 7],
            kind: PhantomData,
        }
    }

    // The digest in a state.
    pub(crate) fn cut(state: &[u64]) -> Digest<K>
        requires { State (K.CAPACITY + 2 * K.DIGEST) state.now }
        ensures { result ≡ cut K.CAPACITY K.DIGEST state.now }
    {
        let mut words = [0; 7];
        words[..K::DIGEST].copy_from_slice(&state[K::CAPACITY..][..K::DIGEST]);
        Digest {
            words,
            kind: PhantomData,
        }
    }

    pub fn words(&self) -> &[u64]
        ensures is { result.now ≡ self.now }
        ensures state { State K.DIGEST result.now }
    {
        &self.words[..K::DIGEST]
    }
}
