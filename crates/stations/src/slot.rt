ghost use Rattle.std.specs.Prelude.{◌≡◌, ℕ, ◌<◌, [], ◌∷◌, IfOk};
ghost use Rattle.kinds.specs.Answers.{answer};
ghost use Rattle.kinds.specs.Denials.{told};
ghost use Rattle.model.specs.Calls.{no_station};

use kinds::denial::Denial;
use std::marker::Model;

// The number of one of the eight stations. Whoever has one need not ask again.
#[derive(Clone, Copy)]
pub struct Slot {
    index: usize,
}

impl Model for Slot {
    ghost Value = { ℕ };

    ghost view = { λ s. s.index };

    ghost invariant = { λ s. s.index < 8 };

    ghost inverse = { λ n. record { index = n } };
}

impl TryFrom<u8> for Slot {
    type Error = Denial;

    ghost try_from_gives = { λ n r. (told r ≡ answer (no_station n ∷ [])) × IfOk r (λ s. s ≡ n) };

    fn try_from(station: u8) -> Result<Slot, Denial> {
        if station < 8 {
            Ok(Slot {
                index: station as usize,
            })
        } else {
            Err(Denial::NoSuchStation)
        }
    }
}

impl Slot {
    pub(crate) fn index(self) -> usize
        ensures exact { result ≡ self }
        ensures below { result < 8 }
    {
        self.index
    }
}
