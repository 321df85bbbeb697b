// A set of parameters: what sets one RPO kind apart from another.
ghost use Rattle.std.specs.Prelude.{◌≡◌, ℕ, ◌+◌, ◌*◌, List, length};
ghost use Rattle.kinds.specs.Kinds.{Sound};
ghost use Rattle.rpo.specs.FirstRow.{first_row};
ghost use Rattle.rpo.specs.Permutation.{permuted, reversed};
ghost use Rattle.rpo.specs.Undo.{Inverses};
ghost use Rattle.rpo_kinds.specs.Constants.{constants_named};

use rpo::matrix::{Circulant, SmallCirculant};

// States have M elements, and the seven rounds N constants, which `text` names.
pub trait ParameterSet<const M: usize, const N: usize> {
    const NUMBER: u8;

    const CAPACITY: usize;

    const DIGEST: usize;

    ghost NUMBER: { ℕ };

    ghost CAPACITY: { ℕ };

    ghost DIGEST: { ℕ };

    ghost text: { List ℕ };

    ghost matrix_row: { List ℕ };

    ghost inverse_row: { List ℕ };

    ghost mapping: { List ℕ → List ℕ };

    ghost back: { List ℕ → List ℕ };

    fn text() -> &'static [u8]
        ensures { result.now ≡ text };

    fn matrix() -> SmallCirculant<M>
        ensures { first_row M result.matrix ≡ matrix_row };

    fn inverse() -> Circulant<M>
        ensures { first_row M result ≡ inverse_row };

    ghost sizes: { (M ≡ CAPACITY + 2 * DIGEST) × (N ≡ 14 * M) × (length matrix_row ≡ M) };

    ghost sound: { Sound NUMBER CAPACITY DIGEST mapping };

    ghost mixes: { (s : List ℕ) → mapping s ≡ permuted matrix_row (constants_named text N) s };

    ghost unmixes: { (s : List ℕ) → back s ≡ reversed inverse_row (constants_named text N) s };

    ghost inverses: { Inverses matrix_row inverse_row };
}
