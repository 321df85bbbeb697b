// The two hashes of both kinds. Each call derives the round constants anew, which a long record or a chain of pairs
// hides.
ghost use Rattle.std.specs.Prelude.{◌≡◌};
ghost use Rattle.rpo_kinds.specs.Mappings.{rpo_128, rpo_160};
ghost use Rattle.sponge.specs.Calls.{digest_call, pair_call};
ghost use Rattle.ffi.specs.Codes.{coded};
ghost use Rattle.ffi.specs.Chains.{chain_call};

use ffi::hash_calls;
use rpo_kinds::rpo128::Rpo128;
use rpo_kinds::rpo160::Rpo160;

#[unsafe(no_mangle)]
pub extern "C" fn rpo128_digest(words: &[u64], out: &mut [u64]) -> u8
    ensures { (result, out.new) ≡ coded (digest_call 4 4 rpo_128 words.now out.old) }
{
    hash_calls::digest_code(&Rpo128::new(), words, out)
}

#[unsafe(no_mangle)]
pub extern "C" fn rpo160_digest(words: &[u64], out: &mut [u64]) -> u8
    ensures { (result, out.new) ≡ coded (digest_call 6 5 rpo_160 words.now out.old) }
{
    hash_calls::digest_code(&Rpo160::new(), words, out)
}

#[unsafe(no_mangle)]
pub extern "C" fn rpo128_pair(a: &[u64], b: &[u64], out: &mut [u64]) -> u8
    ensures { (result, out.new) ≡ coded (pair_call 4 4 rpo_128 a.now b.now out.old) }
{
    hash_calls::pair_code(&Rpo128::new(), a, b, out)
}

#[unsafe(no_mangle)]
pub extern "C" fn rpo160_pair(a: &[u64], b: &[u64], out: &mut [u64]) -> u8
    ensures { (result, out.new) ≡ coded (pair_call 6 5 rpo_160 a.now b.now out.old) }
{
    hash_calls::pair_code(&Rpo160::new(), a, b, out)
}

#[unsafe(no_mangle)]
pub extern "C" fn rpo128_pair_chain(n: u64, a: &mut [u64], b: &[u64], out: &mut [u64]) -> u8
    ensures { (result, (a.new, out.new)) ≡ coded (chain_call 4 4 rpo_128 n a.old b.now out.old) }
{
    hash_calls::pair_chain_code(&Rpo128::new(), n, a, b, out)
}

#[unsafe(no_mangle)]
pub extern "C" fn rpo160_pair_chain(n: u64, a: &mut [u64], b: &[u64], out: &mut [u64]) -> u8
    ensures { (result, (a.new, out.new)) ≡ coded (chain_call 6 5 rpo_160 n a.old b.now out.old) }
{
    hash_calls::pair_chain_code(&Rpo160::new(), n, a, b, out)
}
