ghost use Rattle.std.specs.Prelude.{◌≡◌, refl};
ghost use Rattle.std.proofs.Common.{arith};
ghost use Rattle.rpo.proofs.Rounds.{forward_state, inverse_rows};
ghost use Rattle.rpo.specs.Rows.{row_12, inverse_12};
ghost use Rattle.rpo_kinds.specs.Constants.{constants_named};
ghost use Rattle.rpo_kinds.specs.Mappings.{text_128, rpo_128, rpo_128_back};

use crate::mixing::Rpo;
use crate::parameters::ParameterSet;
use rpo::matrix::{Circulant, SmallCirculant};
use rpo::sizes::{inverse_matrix_12, matrix_12};

// The parameters of RPO-128.
#[derive(Clone, Copy)]
pub struct Set128;

pub type Rpo128 = Rpo<Set128, 12, 168>;

impl ParameterSet<12, 168> for Set128 {
    const NUMBER: u8 = 1;

    const CAPACITY: usize = 4;

    const DIGEST: usize = 4;

    ghost NUMBER = { 1 };

    ghost CAPACITY = { 4 };

    ghost DIGEST = { 4 };

    ghost text = { text_128 };

    ghost matrix_row = { row_12 };

    ghost inverse_row = { inverse_12 };

    ghost mapping = { rpo_128 };

    ghost back = { rpo_128_back };

    #[tactic(auto, unfolding(crate::specs::Mappings::text_128))]
    fn text() -> &'static [u8] {
        b"RPO(18446744069414584321,12,4,128)"
    }

    fn matrix() -> SmallCirculant<12> {
        matrix_12()
    }

    fn inverse() -> Circulant<12> {
        inverse_matrix_12()
    }

    ghost sizes = { (refl, refl, refl) };

    ghost sound = { unfold rpo_128 in
        record {
          number_small = omega arith;
          c_some = omega arith;
          w_some = omega arith;
          m_small = omega arith;
          keeps = forward_state row_12 (constants_named text_128 168) 7;
        } };

    ghost mixes = { unfold rpo_128 in λ s. refl };

    ghost unmixes = { unfold rpo_128_back in λ s. refl };

    ghost inverses = { inverse_rows.0 };
}

impl Rpo<Set128, 12, 168> {
    // The kind, its constants derived.
    pub fn new() -> Rpo128
        ensures { result.constants.words ≡ constants_named text_128 168 }
    {
        let mut stream = [0u8; 1512];
        Rpo::derive(&mut stream)
    }
}
