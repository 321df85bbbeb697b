// The finder: two openings of one place that come from outside, and the clash that they show.
ghost use Rattle.std.specs.Prelude.{◌≡◌, ◌*◌, length};
ghost use Rattle.kinds.specs.Answers.{answer};
ghost use Rattle.kinds.specs.Denials.{told};
ghost use Rattle.openings.specs.Opening.{Climbable};
ghost use Rattle.openings.specs.Sites.{claim_of};
ghost use Rattle.finder.specs.Findings.{shown, verdict_causes, find_call, judged_call};

use crate::clash::Clash;
use crate::showing::{Climbed, show_highest};
use kinds::denial::Denial;
use kinds::kind::Kind;
use openings::climbing::reach;
use openings::opening::Opening;
use openings::site::Site;
use openings::words::{admit_words, words_of};

// The refusals that only the hashes tell.
fn judge(first: bool, second: bool, together: bool) -> Result<(), Denial>
    ensures { told result ≡ answer (verdict_causes first second together) }
{
    if !first {
        return Err(Denial::FirstNotAccepted);
    }
    if !second {
        return Err(Denial::SecondNotAccepted);
    }
    if together {
        return Err(Denial::OpeningsAlike);
    }
    Ok(())
}

// The answer to two openings that are admitted; each is hashed once.
fn find_admitted<K: Kind>(
    kind: &K,
    site: Site<'_>,
    first: Opening<'_>,
    second: Opening<'_>,
    out: &mut [u64],
) -> Result<Clash, Denial>
    requires first { Climbable K.DIGEST site.depth.levels (claim_of first) first.path.now }
    requires second { Climbable K.DIGEST site.depth.levels (claim_of second) second.path.now }
    requires room { length out.old ≡ 4 * K.DIGEST }
    ensures { (told result, shown result, out.new) ≡ judged_call K.CAPACITY K.DIGEST K.mapping site.entry.root.now site.entry.depth.levels site.entry.place (claim_of first.entry) first.entry.path.now (claim_of second.entry) second.entry.path.now out.old }
{
    let k = K::rate();
    let depth = site.depth.levels();
    let n = depth * k;
    let mut ones = [0u64; 128];
    let mut twos = [0u64; 128];
    let one = reach(kind, site, first, &mut ones[..n]);
    let two = reach(kind, site, second, &mut twos[..n]);
    judge(one, two, first == second)?;
    let first = Climbed {
        opening: first,
        pairs: &ones[..n],
    };
    let second = Climbed {
        opening: second,
        pairs: &twos[..n],
    };
    Ok(show_highest(k, depth, first, second, out))
}

// The first clash from the root downward that two openings of one place show. Where it is of pairs, `out` then holds
// both, the first opening's first.
pub fn find_clash<K: Kind>(
    kind: &K,
    root: &[u64],
    depth: u8,
    place: u16,
    first: Opening<'_>,
    second: Opening<'_>,
    out: &mut [u64],
) -> Result<Clash, Denial>
    ensures { (told result, shown result, out.new) ≡ find_call K.CAPACITY K.DIGEST K.mapping root.now depth place (claim_of first.entry) first.entry.path.now (claim_of second.entry) second.entry.path.now out.old }
{
    let site = Site::new(root, depth, place)?;
    site.admit::<K>(&[first, second])?;
    if out.len() != 4 * K::DIGEST {
        return Err(Denial::BadBuffer);
    }
    let one = words_of(first.claim);
    let two = words_of(second.claim);
    admit_words(&[root, one, first.path, two, second.path])?;
    find_admitted(kind, site, first, second, out)
}
