// What two openings show that are known to be accepted, from the pairs that they hashed.
ghost use Rattle.std.specs.Prelude.{◌≡◌, ◌+◌, ◌*◌, ◌<◌, ◌≤◌, length, IfSome};
ghost use Rattle.openings.specs.Opening.{claimed, same, part_at};
ghost use Rattle.openings.specs.Sites.{claim_of};
ghost use Rattle.finder.specs.Findings.{shown_by, highest, one_past, claims_show, shows};

use crate::clash::Clash;
use openings::opening::Opening;
use openings::words::lay;

// An opening, and the pairs that it hashed at its levels.
#[derive(Clone, Copy)]
pub(crate) struct Climbed<'a> {
    pub(crate) opening: Opening<'a>,
    pub(crate) pairs: &'a [u64],
}

impl<'a> Climbed<'a> {
    // The pair of k words at a level.
    fn pair(self, k: usize, level: usize) -> &'a [u64]
        requires { level * k + k ≤ length self.pairs.now }
        ensures { result.now ≡ part_at k level self.entry.pairs.now }
    {
        let at = level * k;
        &self.pairs[at..at + k]
    }
}

// What two claims show whose paths are alike.
fn show_claims(first: Option<&[u64]>, second: Option<&[u64]>) -> Clash
    ensures { shown_by result ≡ claims_show (claimed first.entry) (claimed second.entry) }
{
    match (first, second) {
        (Some(_), Some(_)) => Clash::Records,
        (Some(_), None) => Clash::ZeroRecord { second: false },
        (None, _) => Clash::ZeroRecord { second: true },
    }
}

// Of n levels, the highest at which the pairs of k words differ.
fn highest_unlike(k: usize, n: usize, first: Climbed<'_>, second: Climbed<'_>) -> Option<usize>
    requires first { length first.pairs.now ≡ n * k }
    requires second { length second.pairs.now ≡ n * k }
    ensures highest { one_past result ≡ highest (λ level. same (part_at k level first.entry.pairs.now) (part_at k level second.entry.pairs.now)) n }
    ensures low { IfSome result (λ level. level < n) }
{
    (0..n)
        .rev()
        .find(|level| first.pair(k, *level) != second.pair(k, *level))
}

// From the root downward, the first level at which the pairs differ.
pub(crate) fn show_highest(
    k: usize,
    depth: usize,
    first: Climbed<'_>,
    second: Climbed<'_>,
    out: &mut [u64],
) -> Clash
    requires first { length first.pairs.now ≡ depth * k }
    requires second { length second.pairs.now ≡ depth * k }
    requires room { length out.old ≡ k + k }
    ensures { (shown_by result, out.new) ≡ shows (λ level. part_at k level first.entry.pairs.now) (λ level. part_at k level second.entry.pairs.now) (claim_of first.entry.opening) (claim_of second.entry.opening) out.old depth }
{
    match highest_unlike(k, depth, first, second) {
        Some(level) => {
            lay(first.pair(k, level), second.pair(k, level), out);
            Clash::Pairs { level }
        }
        None => show_claims(first.opening.claim, second.opening.claim),
    }
}
