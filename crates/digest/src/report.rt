ghost use Rattle.std.specs.Prelude.{◌≡◌, Some};
ghost use Rattle.rpo_kinds.specs.Names.{name_of};

use crate::explained::{Blocks, Filling, sizes_of};
use console::output::{Named, Refused};
use kinds::kind::Kind;
use rpo_kinds::names::KindName;
use sponge::digest::digest;
use std::io;

// What is done to a record, and its digest; or why it has none.
fn print_digest<K: Kind>(rt: &impl Print, kind: &K, words: &[u64]) -> io::Result<()> {
    let mut room = [0u64; 16];
    let out = &mut room[..K::DIGEST];
    match digest(kind, words, out) {
        Ok(()) => {
            let blocks = Blocks {
                length: words.len(),
                rate: K::rate(),
            };
            println!(rt; "{blocks}")?;
            println!(rt; "{}", Filling(blocks))?;
            let digest = Named {
                name: "digest:",
                words: out,
            };
            println!(rt; "{digest}")
        }
        Err(why) => println!(rt; "{}", Refused(why)),
    }
}

// Digests a record by the kind of that name, and prints what is done on the way.
pub(crate) fn report<K: Kind>(
    rt: &impl Print,
    kind: &K,
    name: KindName,
    words: &[u64],
) -> io::Result<()>
    requires { name_of K.NUMBER ≡ Some name }
{
    println!(rt; "kind: {name}, {}", sizes_of::<K>(name))?;
    print_digest(rt, kind, words)
}
