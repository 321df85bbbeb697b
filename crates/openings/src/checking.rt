// The check of an opening that comes from outside.
ghost use Rattle.std.specs.Prelude.{◌≡◌};
ghost use Rattle.kinds.specs.Denials.{told};
ghost use Rattle.openings.specs.Opening.{claimed};
ghost use Rattle.openings.specs.Checks.{check_call, accepted};

use crate::climbing::reach;
use crate::opening::Opening;
use crate::site::Site;
use crate::words::{admit_words, words_of};
use kinds::denial::Denial;
use kinds::kind::Kind;

// The deepest tree, as a depth that is admitted says of itself.
pub const DEEPEST: usize = 8;

// Whether an opening, a claim with its path, belongs to a root.
pub fn check<'a, K: Kind>(
    kind: &K,
    root: &[u64],
    depth: u8,
    place: u16,
    claim: Option<&'a [u64]>,
    path: &'a [u64],
) -> Result<bool, Denial>
    ensures { (told result, accepted result) ≡ check_call K.CAPACITY K.DIGEST K.mapping root.now depth place (claimed claim.entry) path.now }
{
    let site = Site::new(root, depth, place)?;
    let opening = Opening { claim, path };
    site.admit::<K>(&[opening])?;
    admit_words(&[root, words_of(claim), path])?;
    let n = site.depth.levels() * K::rate();
    let mut pairs = [0u64; 128];
    Ok(reach(kind, site, opening, &mut pairs[..n]))
}
