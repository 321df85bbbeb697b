ghost use Rattle.std.specs.Prelude.{◌≤◌};

use sponge::sponge::Sponge;

pub mod feeding;

// A record in hand: the place that it is for, its stated length, how many of its elements came, and the sponge that took them.
#[derive(Clone, Copy)]
pub struct Record {
    pub(crate) place: usize,
    pub(crate) length: usize,
    pub(crate) got: usize,
    pub(crate) sponge: Sponge,
    ghost within: { got ≤ length },
}
