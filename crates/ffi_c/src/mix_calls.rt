// The permutations, with the round constants passed in, so that a caller derives them once.
ghost use Rattle.std.specs.Prelude.{◌≡◌};
ghost use Rattle.keccak.specs.Keccak.{keccak_f};
ghost use Rattle.rpo.specs.Permutation.{permuted};
ghost use Rattle.rpo.specs.Rows.{row_12, row_16};

use keccak::keccak_f;
use rpo::permutation::Rounds;
use rpo::sizes::{matrix_12, matrix_16};

#[unsafe(no_mangle)]
pub extern "C" fn rpo128_permute(constants: &[u64; 168], state: &mut [u64; 12])
    ensures { state.new ≡ permuted row_12 constants.now state.old }
{
    let small = matrix_12();
    Rounds { small, constants }.permute(state);
}

#[unsafe(no_mangle)]
pub extern "C" fn rpo160_permute(constants: &[u64; 224], state: &mut [u64; 16])
    ensures { state.new ≡ permuted row_16 constants.now state.old }
{
    let small = matrix_16();
    Rounds { small, constants }.permute(state);
}

#[unsafe(no_mangle)]
pub extern "C" fn keccak_f1600(lanes: &mut [u64; 25])
    ensures { lanes.new ≡ keccak_f lanes.old }
{
    let next = keccak_f(*lanes);
    *lanes = next;
}
