ghost use Rattle.std.specs.Prelude.{◌≡◌, ◌+◌, ◌*◌, IfOk};
ghost use Rattle.kinds.specs.Denials.{told};
ghost use Rattle.kinds.specs.Kinds.{State};
ghost use Rattle.kinds.specs.Permuting.{permute_answer, permute_call};

use crate::denial::Denial;
use crate::kind::Kind;
use crate::words::admit;

// Denies what is no state of that many elements.
pub fn admit_state(size: usize, state: &[u64]) -> Result<(), Denial>
    ensures answer { told result ≡ permute_answer size state.now }
    ensures state { IfOk result (λ done. State size state.now) }
{
    if state.len() != size {
        return Err(Denial::BadBuffer);
    }
    admit(0, state)
}

// Mixes a state that comes from outside.
pub fn permute<K: Kind>(kind: &K, state: &mut [u64]) -> Result<(), Denial>
    ensures { (told result, state.new) ≡ permute_call (K.CAPACITY + 2 * K.DIGEST) K.mapping state.old }
{
    admit_state(K::state_len(), state)?;
    kind.mix(state);
    Ok(())
}
