// The two hashes over any kind, and its mixing with the reverse. Whoever calls these derives the round constants anew,
// which a long record or a chain of pairs hides.
ghost use Rattle.std.specs.Prelude.{◌≡◌, ◌+◌, ◌*◌};
ghost use Rattle.kinds.specs.Denials.{told};
ghost use Rattle.kinds.specs.Permuting.{permute_call};
ghost use Rattle.sponge.specs.Calls.{digest_call, pair_call};
ghost use Rattle.ffi.specs.Codes.{coded};
ghost use Rattle.ffi.specs.Chains.{chain_call};

use crate::code::code;
use kinds::denial::Denial;
use kinds::kind::Kind;
use kinds::permuting::permute;
use rpo_kinds::reversing::{Reversible, reverse};
use sponge::digest::digest;
use sponge::pair::two_to_one;

pub fn digest_code<K: Kind>(kind: &K, words: &[u64], out: &mut [u64]) -> u8
    ensures { (result, out.new) ≡ coded (digest_call K.CAPACITY K.DIGEST K.mapping words.now out.old) }
{
    code(digest(kind, words, out))
}

pub fn pair_code<K: Kind>(kind: &K, a: &[u64], b: &[u64], out: &mut [u64]) -> u8
    ensures { (result, out.new) ≡ coded (pair_call K.CAPACITY K.DIGEST K.mapping a.now b.now out.old) }
{
    code(two_to_one(kind, a, b, out))
}

// n times: the hash of a and b goes to out, and from there to a.
fn chain<K: Kind>(kind: &K, n: u64, a: &mut [u64], b: &[u64], out: &mut [u64]) -> Result<(), Denial>
    ensures { (told result, (a.new, out.new)) ≡ chain_call K.CAPACITY K.DIGEST K.mapping n a.old b.now out.old }
{
    if a.len() != out.len() {
        return Err(Denial::BadBuffer);
    }
    for _ in 0..n {
        two_to_one(kind, a, b, out)?;
        a.copy_from_slice(out);
    }
    Ok(())
}

pub fn pair_chain_code<K: Kind>(kind: &K, n: u64, a: &mut [u64], b: &[u64], out: &mut [u64]) -> u8
    ensures { (result, (a.new, out.new)) ≡ coded (chain_call K.CAPACITY K.DIGEST K.mapping n a.old b.now out.old) }
{
    code(chain(kind, n, a, b, out))
}

pub fn permute_code<K: Kind>(kind: &K, state: &mut [u64]) -> u8
    ensures { (result, state.new) ≡ coded (permute_call (K.CAPACITY + 2 * K.DIGEST) K.mapping state.old) }
{
    code(permute(kind, state))
}

pub fn reverse_code<K: Reversible>(kind: &K, state: &mut [u64]) -> u8
    ensures { (result, state.new) ≡ coded (permute_call (K.CAPACITY + 2 * K.DIGEST) K.back state.old) }
{
    code(reverse(kind, state))
}
