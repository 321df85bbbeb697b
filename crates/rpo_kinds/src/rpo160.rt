ghost use Rattle.std.specs.Prelude.{◌≡◌, refl};
ghost use Rattle.std.proofs.Common.{arith};
ghost use Rattle.rpo.proofs.Rounds.{forward_state, inverse_rows};
ghost use Rattle.rpo.specs.Rows.{row_16, inverse_16};
ghost use Rattle.rpo_kinds.specs.Constants.{constants_named};
ghost use Rattle.rpo_kinds.specs.Mappings.{text_160, rpo_160, rpo_160_back};

use crate::mixing::Rpo;
use crate::parameters::ParameterSet;
use rpo::matrix::{Circulant, SmallCirculant};
use rpo::sizes::{inverse_matrix_16, matrix_16};

// The parameters of RPO-160.
#[derive(Clone, Copy)]
pub struct Set160;

pub type Rpo160 = Rpo<Set160, 16, 224>;

impl ParameterSet<16, 224> for Set160 {
    const NUMBER: u8 = 2;

    const CAPACITY: usize = 6;

    const DIGEST: usize = 5;

    ghost NUMBER = { 2 };

    ghost CAPACITY = { 6 };

    ghost DIGEST = { 5 };

    ghost text = { text_160 };

    ghost matrix_row = { row_16 };

    ghost inverse_row = { inverse_16 };

    ghost mapping = { rpo_160 };

    ghost back = { rpo_160_back };

    #[tactic(auto, unfolding(crate::specs::Mappings::text_160))]
    fn text() -> &'static [u8] {
        b"RPO(18446744069414584321,16,6,160)"
    }

    fn matrix() -> SmallCirculant<16> {
        matrix_16()
    }

    fn inverse() -> Circulant<16> {
        inverse_matrix_16()
    }

    ghost sizes = { (refl, refl, refl) };

    ghost sound = { unfold rpo_160 in
        record {
          number_small = omega arith;
          c_some = omega arith;
          w_some = omega arith;
          m_small = omega arith;
          keeps = forward_state row_16 (constants_named text_160 224) 7;
        } };

    ghost mixes = { unfold rpo_160 in λ s. refl };

    ghost unmixes = { unfold rpo_160_back in λ s. refl };

    ghost inverses = { inverse_rows.1 };
}

impl Rpo<Set160, 16, 224> {
    // The kind, its constants derived.
    pub fn new() -> Rpo160
        ensures { result.constants.words ≡ constants_named text_160 224 }
    {
        let mut stream = [0u8; 2016];
        Rpo::derive(&mut stream)
    }
}
