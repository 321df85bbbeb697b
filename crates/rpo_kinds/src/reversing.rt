ghost use Rattle.std.specs.Prelude.{◌≡◌, ℕ, ◌+◌, ◌*◌, List};
ghost use Rattle.kinds.specs.Kinds.{State};
ghost use Rattle.kinds.specs.Denials.{told};
ghost use Rattle.kinds.specs.Permuting.{permute_call};
ghost use Rattle.rpo.specs.Undo.{UndoBy};

use kinds::denial::Denial;
use kinds::kind::Kind;
use kinds::permuting::admit_state;

// A kind that can take its mixing back, by the law `undoes`.
pub trait Reversible: Kind {
    ghost back: { List ℕ → List ℕ };

    // Leaves exactly `back` of the state.
    fn unmix(&self, state: &mut [u64])
        requires { State (Self.CAPACITY + 2 * Self.DIGEST) state.old }
        ensures { state.new ≡ back state.old };

    // Mixing and this undo one another, on every state.
    ghost undoes: { UndoBy (Self.CAPACITY + 2 * Self.DIGEST) Self.mapping back };
}

// Takes the mixing of a state that comes from outside back.
pub fn reverse<K: Reversible>(kind: &K, state: &mut [u64]) -> Result<(), Denial>
    ensures { (told result, state.new) ≡ permute_call (K.CAPACITY + 2 * K.DIGEST) K.back state.old }
{
    admit_state(K::state_len(), state)?;
    kind.unmix(state);
    Ok(())
}
