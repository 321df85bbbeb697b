// The kind that a set of parameters makes.
ghost use Rattle.std.specs.Prelude.{◌≡◌, ◌*◌, length};
ghost use Rattle.rpo.specs.FirstRow.{first_row};
ghost use Rattle.rpo_kinds.specs.Constants.{constants_named};

use crate::constants::RoundConstants;
use crate::parameters::ParameterSet;
use crate::reversing::Reversible;
use kinds::kind::Kind;
use rpo::permutation::{Rounds, RoundsBack};
use std::alloc::AllocError;
use std::marker::PhantomData;

// RPO at a set of parameters, with the round constants that its text names. No other constants can be in it.
pub struct Rpo<S: ParameterSet<M, N>, const M: usize, const N: usize> {
    constants: RoundConstants<N>,
    set: PhantomData<S>,
    ghost derived: { constants.words ≡ constants_named S.text N },
}

// Copying is written out, since a derive is refused beside a ghost field that names a type parameter.
impl<S: ParameterSet<M, N>, const M: usize, const N: usize> Copy for Rpo<S, M, N> {}

impl<S: ParameterSet<M, N>, const M: usize, const N: usize> Clone for Rpo<S, M, N> {
    ghost is_clone = { λ x y. y ≡ x };

    ghost is_infallible = { λ _. Unit {0} };

    fn clone(&self) -> Result<Rpo<S, M, N>, AllocError> {
        Ok(Rpo {
            constants: self.constants,
            set: PhantomData,
        })
    }
}

impl<S: ParameterSet<M, N>, const M: usize, const N: usize> Rpo<S, M, N> {
    // The kind, its constants derived; `stream` is room for nine bytes each.
    pub(crate) fn derive(stream: &mut [u8]) -> Rpo<S, M, N>
        requires { length stream.old ≡ 9 * N }
        ensures { result.constants.words ≡ constants_named S.text N }
    {
        let constants = RoundConstants::named(S::text(), stream);
        Rpo {
            constants,
            set: PhantomData,
        }
    }

    fn rounds(&self) -> Rounds<'_, M>
        ensures row { first_row M result.small.matrix ≡ S.matrix_row }
        ensures constants { result.constants.now ≡ constants_named S.text N }
    {
        Rounds {
            small: S::matrix(),
            constants: &self.constants.words,
        }
    }

    fn rounds_back(&self) -> RoundsBack<'_, M>
        ensures row { first_row M result.inverse ≡ S.inverse_row }
        ensures constants { result.constants.now ≡ constants_named S.text N }
    {
        RoundsBack {
            inverse: S::inverse(),
            constants: &self.constants.words,
        }
    }
}

impl<S: ParameterSet<M, N>, const M: usize, const N: usize> Kind for Rpo<S, M, N> {
    const NUMBER: u8 = S::NUMBER;

    const CAPACITY: usize = S::CAPACITY;

    const DIGEST: usize = S::DIGEST;

    ghost NUMBER = { S.NUMBER };

    ghost CAPACITY = { S.CAPACITY };

    ghost DIGEST = { S.DIGEST };

    ghost mapping = { S.mapping };

    ghost sound = { S.sound };

    fn mix(&self, state: &mut [u64]) {
        let s = state.as_mut_array().unwrap();
        self.rounds().permute(s);
    }
}

impl<S: ParameterSet<M, N>, const M: usize, const N: usize> Reversible for Rpo<S, M, N> {
    ghost use Rattle.rpo.proofs.Rounds.{undone_by};
    ghost use Rattle.rpo_kinds.specs.Constants.{elements_named};

    ghost back = { S.back };

    ghost undoes = { undone_by _ (elements_named S.text N) S.sizes.0 S.sizes.2 S.inverses S.mixes S.unmixes };

    fn unmix(&self, state: &mut [u64]) {
        let s = state.as_mut_array().unwrap();
        self.rounds_back().reverse(s);
    }
}
