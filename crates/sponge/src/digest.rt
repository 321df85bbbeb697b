ghost use Rattle.std.specs.Prelude.{◌≡◌};
ghost use Rattle.field.specs.Field.{Elements};
ghost use Rattle.kinds.specs.Denials.{told};
ghost use Rattle.sponge.specs.Digests.{digest_of, start_of};
ghost use Rattle.sponge.specs.Calls.{bad_length, digest_call};

use crate::hash::Digest;
use crate::sponge::Sponge;
use field::element::Element;
use kinds::denial::Denial;
use kinds::kind::Kind;
use kinds::words::admit;

// The longest record, in elements.
pub const LONGEST: usize = 4096;

// Whether no record is so long.
pub fn is_bad_length(length: usize) -> bool
    ensures { result ≡ (bad_length length).0 }
{
    length == 0 || length > LONGEST
}

// Where capacity element 0 starts for a record of that length.
pub fn start_for<K: Kind>(length: usize) -> Element
    ensures { result.word ≡ start_of K.DIGEST length }
{
    if length % K::rate() == 0 {
        Element { word: 0 }
    } else {
        Element { word: 1 }
    }
}

// The digest of a record that is known to be one.
pub fn digest_elements<K: Kind>(kind: &K, words: &[u64]) -> Digest<K>
    requires { Elements words.now }
    ensures { result ≡ digest_of K.CAPACITY K.DIGEST K.mapping words.now }
{
    let mut sponge = Sponge::start::<K>(start_for::<K>(words.len()));
    sponge.absorb_all(kind, words);
    sponge.finish(kind)
}

// The digest of a record.
pub fn digest<K: Kind>(kind: &K, words: &[u64], out: &mut [u64]) -> Result<(), Denial>
    ensures { (told result, out.new) ≡ digest_call K.CAPACITY K.DIGEST K.mapping words.now out.old }
{
    if is_bad_length(words.len()) {
        return Err(Denial::BadLength);
    }
    if out.len() != K::DIGEST {
        return Err(Denial::BadBuffer);
    }
    admit(0, words)?;
    out.copy_from_slice(digest_elements(kind, words).words());
    Ok(())
}
