// From the leaf of a claim to the top of its path.
ghost use Rattle.std.specs.Prelude.{◌≡◌, ◌*◌, length};
ghost use Rattle.field.specs.Field.{Elements};
ghost use Rattle.kinds.specs.Kinds.{State};
ghost use Rattle.model.specs.Trees.{leaf};
ghost use Rattle.openings.specs.Opening.{claimed, words_of, paired, flat, hash_of, own_at, pairs_below, reaches, Climbable};
ghost use Rattle.openings.specs.Sites.{claim_of};

use crate::opening::Opening;
use crate::site::Site;
use crate::words::lay;
use kinds::kind::Kind;
use sponge::digest::digest_elements;
use sponge::hash::Digest;
use sponge::pair::compress;

// The leaf of a claim.
fn leaf_of<K: Kind>(kind: &K, claim: Option<&[u64]>) -> Digest<K>
    requires { Elements (words_of (claimed claim)) }
    ensures { result ≡ leaf K.CAPACITY K.DIGEST K.mapping (claimed claim.entry) }
{
    match claim {
        Some(words) => digest_elements(kind, words),
        None => Digest::zeros(),
    }
}

// One level up; the pair is left in `pair`.
fn step<K: Kind>(
    kind: &K,
    right: bool,
    own: &Digest<K>,
    sibling: &[u64],
    pair: &mut [u64],
) -> Digest<K>
    requires sibling { State K.DIGEST sibling.now }
    requires room { length pair.old ≡ 2 * K.DIGEST }
    ensures own { result ≡ hash_of K.CAPACITY K.DIGEST K.mapping (paired right own.now sibling.now) }
    ensures pair { pair.new ≡ flat (paired right own.now sibling.now) }
    ensures long { length pair.new ≡ 2 * K.DIGEST }
{
    let own = own.words();
    let (first, second) = if right {
        (sibling, own)
    } else {
        (own, sibling)
    };
    lay(first, second, pair);
    compress(kind, first, second)
}

// From the leaf to the top, one hash for each level.
fn climb<K: Kind>(
    kind: &K,
    site: Site<'_>,
    leaf: Digest<K>,
    path: &[u64],
    pairs: &mut [u64],
) -> Digest<K>
    requires path { State (site.depth.levels * K.DIGEST) path.now }
    requires room { length pairs.old ≡ site.depth.levels * (2 * K.DIGEST) }
    ensures top { result ≡ own_at K.CAPACITY K.DIGEST K.mapping site.entry.place leaf path.now site.entry.depth.levels }
    ensures pairs { pairs.new ≡ pairs_below K.CAPACITY K.DIGEST K.mapping site.entry.place leaf path.now site.entry.depth.levels }
{
    let w = K::DIGEST;
    let mut own = leaf;
    for (level, sibling) in path.chunks_exact(w).enumerate() {
        let at = 2 * w * level;
        let right = site.is_on_right(level);
        own = step(kind, right, &own, sibling, &mut pairs[at..at + 2 * w]);
    }
    own
}

// Whether an opening that is known to be one comes to the root; its pairs are left in `pairs`.
pub fn reach<K: Kind>(kind: &K, site: Site<'_>, opening: Opening<'_>, pairs: &mut [u64]) -> bool
    requires fair { Climbable K.DIGEST site.depth.levels (claim_of opening) opening.path.now }
    requires room { length pairs.old ≡ site.depth.levels * (2 * K.DIGEST) }
    ensures answer { result ≡ reaches K.CAPACITY K.DIGEST K.mapping site.entry.root.now site.entry.depth.levels site.entry.place (claim_of opening.entry) opening.entry.path.now }
    ensures pairs { pairs.new ≡ pairs_below K.CAPACITY K.DIGEST K.mapping site.entry.place (leaf K.CAPACITY K.DIGEST K.mapping (claim_of opening.entry)) opening.entry.path.now site.entry.depth.levels }
{
    let leaf = leaf_of(kind, opening.claim);
    let top = climb(kind, site, leaf, opening.path, pairs);
    top.words() == site.root
}
