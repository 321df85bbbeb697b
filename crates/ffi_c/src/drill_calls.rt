// The calls of the drill kind, with which a caller can try his own code: its values can be worked out by hand, and its
// clashes are easily found.
ghost use Rattle.std.specs.Prelude.{◌≡◌};
ghost use Rattle.kinds.specs.Kinds.{drill};
ghost use Rattle.kinds.specs.Permuting.{permute_call};
ghost use Rattle.sponge.specs.Calls.{digest_call, pair_call};
ghost use Rattle.ffi.specs.Codes.{coded};

use ffi::hash_calls;
use kinds::drill::Drill;

#[unsafe(no_mangle)]
pub extern "C" fn drill_digest(words: &[u64], out: &mut [u64]) -> u8
    ensures { (result, out.new) ≡ coded (digest_call 1 1 drill words.now out.old) }
{
    hash_calls::digest_code(&Drill, words, out)
}

#[unsafe(no_mangle)]
pub extern "C" fn drill_pair(a: &[u64], b: &[u64], out: &mut [u64]) -> u8
    ensures { (result, out.new) ≡ coded (pair_call 1 1 drill a.now b.now out.old) }
{
    hash_calls::pair_code(&Drill, a, b, out)
}

#[unsafe(no_mangle)]
pub extern "C" fn drill_permute_state(state: &mut [u64]) -> u8
    ensures { (result, state.new) ≡ coded (permute_call 3 drill state.old) }
{
    hash_calls::permute_code(&Drill, state)
}
