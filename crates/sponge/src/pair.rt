ghost use Rattle.std.specs.Prelude.{◌≡◌, ◌+◌, ◌*◌, ◌≤◌, [], ◌∷◌, ◌++◌, length, take, replicate, IfOk};
ghost use Rattle.field.specs.Field.{Elements};
ghost use Rattle.kinds.specs.Answers.{answer};
ghost use Rattle.kinds.specs.Kinds.{State};
ghost use Rattle.kinds.specs.Words.{not_elements};
ghost use Rattle.kinds.specs.Denials.{told};
ghost use Rattle.sponge.specs.Digests.{two_to_one};
ghost use Rattle.sponge.specs.Calls.{pair_answer, pair_call};

use crate::hash::Digest;
use kinds::denial::Denial;
use kinds::kind::Kind;
use kinds::words::admit;

// The state that a pair of digests is hashed from: zeros, and then both. What is left of the sixteen words is zeros.
fn joined<K: Kind>(a: &[u64], b: &[u64]) -> [u64; 16]
    requires a { State K.DIGEST a.now }
    requires b { State K.DIGEST b.now }
    ensures { take (K.CAPACITY + 2 * K.DIGEST) result ≡ replicate K.CAPACITY 0 ++ (a.now ++ b.now) }
{
    let c = K::CAPACITY;
    let w = K::DIGEST;
    let mut words = [0u64; 16];
    words[c..c + w].copy_from_slice(a);
    words[c + w..c + 2 * w].copy_from_slice(b);
    words
}

// The two-to-one hash of what is known to be two digests.
pub fn compress<K: Kind>(kind: &K, a: &[u64], b: &[u64]) -> Digest<K>
    requires a { State K.DIGEST a.now }
    requires b { State K.DIGEST b.now }
    ensures { result ≡ two_to_one K.CAPACITY K.DIGEST K.mapping a.now b.now }
{
    let mut words = joined::<K>(a, b);
    let state = &mut words[..K::state_len()];
    kind.mix(state);
    Digest::cut(state)
}

// Denies words of which one is no element, with its index counted through both parts.
fn admit_both(a: &[u64], b: &[u64]) -> Result<(), Denial>
    requires { length a.now ≤ 16 }
    ensures answer { told result ≡ answer (not_elements (a.now ++ b.now) ∷ []) }
    ensures first { IfOk result (λ done. Elements a.now) }
    ensures second { IfOk result (λ done. Elements b.now) }
{
    admit(0, a)?;
    admit(a.len(), b)
}

// Denies what are no two digests, or no room for one.
fn admit_pair(size: usize, a: &[u64], b: &[u64], out: &[u64]) -> Result<(), Denial>
    requires { size ≤ 16 }
    ensures answer { told result ≡ pair_answer size a.now b.now out.now }
    ensures first { IfOk result (λ done. State size a.now) }
    ensures second { IfOk result (λ done. State size b.now) }
{
    if a.len() != size || b.len() != size || out.len() != size {
        return Err(Denial::BadBuffer);
    }
    admit_both(a, b)
}

// The two-to-one hash of two digests.
pub fn two_to_one<K: Kind>(kind: &K, a: &[u64], b: &[u64], out: &mut [u64]) -> Result<(), Denial>
    ensures { (told result, out.new) ≡ pair_call K.CAPACITY K.DIGEST K.mapping a.now b.now out.old }
{
    admit_pair(K::DIGEST, a, b, out)?;
    out.copy_from_slice(compress(kind, a, b).words());
    Ok(())
}
