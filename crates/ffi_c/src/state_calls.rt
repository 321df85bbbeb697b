// The mixings of both kinds and their reverses, on states that come from outside. Each call derives the round constants
// anew; `mix_calls` has the mixings for a caller that derives them once.
ghost use Rattle.std.specs.Prelude.{◌≡◌};
ghost use Rattle.kinds.specs.Permuting.{permute_call};
ghost use Rattle.rpo_kinds.specs.Mappings.{rpo_128, rpo_128_back, rpo_160, rpo_160_back};
ghost use Rattle.ffi.specs.Codes.{coded};

use ffi::hash_calls;
use rpo_kinds::rpo128::Rpo128;
use rpo_kinds::rpo160::Rpo160;

#[unsafe(no_mangle)]
pub extern "C" fn rpo128_permute_state(state: &mut [u64]) -> u8
    ensures { (result, state.new) ≡ coded (permute_call 12 rpo_128 state.old) }
{
    hash_calls::permute_code(&Rpo128::new(), state)
}

#[unsafe(no_mangle)]
pub extern "C" fn rpo160_permute_state(state: &mut [u64]) -> u8
    ensures { (result, state.new) ≡ coded (permute_call 16 rpo_160 state.old) }
{
    hash_calls::permute_code(&Rpo160::new(), state)
}

#[unsafe(no_mangle)]
pub extern "C" fn rpo128_reverse_state(state: &mut [u64]) -> u8
    ensures { (result, state.new) ≡ coded (permute_call 12 rpo_128_back state.old) }
{
    hash_calls::reverse_code(&Rpo128::new(), state)
}

#[unsafe(no_mangle)]
pub extern "C" fn rpo160_reverse_state(state: &mut [u64]) -> u8
    ensures { (result, state.new) ≡ coded (permute_call 16 rpo_160_back state.old) }
{
    hash_calls::reverse_code(&Rpo160::new(), state)
}
