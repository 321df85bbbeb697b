ghost use Rattle.std.specs.Prelude.{◌≡◌, true};
ghost use Rattle.stations.specs.Phases.{sound};

use crate::phase::Phase;

pub mod calls;

// One station, a machine in place.
#[derive(Clone, Copy)]
pub struct Station {
    phase: Phase,
    ghost sound: { sound phase ≡ true },
}
