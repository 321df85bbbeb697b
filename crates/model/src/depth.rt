ghost use Rattle.std.specs.Prelude.{◌≡◌, ◌^◌, ◌<◌, ◌≤◌, [], ◌∷◌, IfOk};
ghost use Rattle.kinds.specs.Answers.{answer};
ghost use Rattle.kinds.specs.Denials.{told};
ghost use Rattle.model.specs.Calls.{too_deep, no_place};

use kinds::denial::Denial;

// How many levels a tree has above its leaves: at most eight.
#[derive(Clone, Copy)]
pub struct Depth {
    levels: usize,
    ghost shallow: { levels ≤ 8 },
}

impl TryFrom<u8> for Depth {
    type Error = Denial;

    ghost try_from_gives = { λ n r. (told r ≡ answer (too_deep n ∷ [])) × IfOk r (λ d. d.levels ≡ n) };

    fn try_from(depth: u8) -> Result<Depth, Denial> {
        if depth > 8 {
            Err(Denial::DepthTooLarge)
        } else {
            Ok(Depth {
                levels: depth as usize,
            })
        }
    }
}

impl Depth {
    // The depth of a tree of one leaf.
    pub fn zero() -> Depth
        ensures { result.levels ≡ 0 }
    {
        Depth { levels: 0 }
    }

    pub fn levels(self) -> usize
        ensures exact { result ≡ self.levels }
        ensures shallow { result ≤ 8 }
    {
        self.levels
    }

    // How many places a tree of this depth has.
    pub fn places(self) -> usize
        ensures exact { result ≡ 2 ^ self.levels }
        ensures few { result ≤ 256 }
    {
        1 << self.levels
    }

    // Denies a place that a tree of this depth has not.
    pub fn admit(self, place: u16) -> Result<usize, Denial>
        ensures answer { told result ≡ answer (no_place self.levels place ∷ []) }
        ensures place { IfOk result (λ p. (p ≡ place) × (p < 2 ^ self.levels)) }
    {
        if place as usize >= self.places() {
            return Err(Denial::NoSuchPlace);
        }
        Ok(place as usize)
    }
}
