// Where openings are to lead, and what is refused of them before any hash.
ghost use Rattle.std.specs.Prelude.{◌≡◌, ◌*◌, ◌<◌, [], ◌∷◌, length, IfOk};
ghost use Rattle.std.specs.List.{list_any, AllByRecursion};
ghost use Rattle.kinds.specs.Answers.{answer};
ghost use Rattle.kinds.specs.Denials.{told};
ghost use Rattle.kinds.specs.Permuting.{bad_buffer};
ghost use Rattle.model.specs.Calls.{too_deep, no_place};
ghost use Rattle.openings.specs.Opening.{is_right};
ghost use Rattle.openings.specs.Checks.{bad_claim};
ghost use Rattle.openings.specs.Sites.{shape_causes, claim_of};

use crate::opening::Opening;
use crate::words::is_bad_claim;
use kinds::denial::Denial;
use kinds::kind::Kind;
use model::depth::Depth;

// A place of a tree of some depth, below a root.
#[derive(Clone, Copy)]
pub struct Site<'a> {
    pub root: &'a [u64],
    pub depth: Depth,
    pub place: usize,
}

// Whether any claim is too short or too long for a record.
fn any_bad_claim(openings: &[Opening<'_>]) -> bool
    ensures { result ≡ list_any (λ x. (bad_claim (claim_of x)).0) openings.now }
{
    openings.iter().any(|x| is_bad_claim(x.claim))
}

// Whether any path has not exactly so many words.
fn any_bad_path(openings: &[Opening<'_>], long: usize) -> bool
    ensures { result ≡ list_any (λ x. (bad_buffer long x.path.now).0) openings.now }
{
    openings.iter().any(|x| x.path.len() != long)
}

impl<'a> Site<'a> {
    // Denies a depth that no tree has, and then a place that the tree has not.
    pub fn new(root: &'a [u64], depth: u8, place: u16) -> Result<Site<'a>, Denial>
        ensures answer { told result ≡ answer (too_deep depth ∷ no_place depth place ∷ []) }
        ensures site { IfOk result (λ s. (s.root.now ≡ root.now) × (s.depth.levels ≡ depth) × (s.place ≡ place)) }
    {
        let depth = Depth::try_from(depth)?;
        let place = depth.admit(place)?;
        Ok(Site { root, depth, place })
    }

    // Whether the digest at a level is the right one of its pair.
    pub(crate) fn is_on_right(self, level: usize) -> bool
        requires { level < 64 }
        ensures { result ≡ is_right self.entry.place level }
    {
        (self.place >> level) % 2 == 1
    }

    // The refusals of lengths, in their order.
    #[tactic(auto, using(crate::proofs::Causes::shapes_answer))]
    pub fn admit<K: Kind>(self, openings: &[Opening<'_>]) -> Result<(), Denial>
        ensures answer { told result ≡ answer (shape_causes K.DIGEST self.entry.root.now self.entry.depth.levels openings.now) }
        ensures paths { IfOk result (λ done. AllByRecursion (λ x. length x.path.now ≡ self.entry.depth.levels * K.DIGEST) openings.now) }
    {
        if any_bad_claim(openings) {
            return Err(Denial::BadLength);
        }
        let long = self.depth.levels() * K::DIGEST;
        if self.root.len() != K::DIGEST || any_bad_path(openings, long) {
            return Err(Denial::BadBuffer);
        }
        Ok(())
    }
}
