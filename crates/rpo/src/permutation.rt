// The permutation and its reverse, one text for both sizes.
ghost use Rattle.std.specs.Prelude.{◌≡◌, ◌+◌, ◌*◌, ◌<◌, ◌≤◌, length};
ghost use Rattle.field.specs.Field.{Elements};
ghost use Rattle.field.specs.Powers.{exponent_of};
ghost use Rattle.rpo.specs.FirstRow.{first_row};
ghost use Rattle.rpo.specs.Permutation.{unkeyed, half, half_back, round, round_back, permuted, reversed};

use crate::matrix::{Circulant, SmallCirculant};
use field::element::Element;
use field::lanes::raise_each;
use field::power::Power;

// What the permutation goes by: a small matrix, and the constants of its seven rounds.
#[derive(Clone, Copy)]
pub struct Rounds<'a, const M: usize> {
    pub small: SmallCirculant<M>,
    pub constants: &'a [u64],
    ghost enough: { length constants.now ≡ 14 * M },
}

impl<'a, const M: usize> Rounds<'a, M> {
    // Half a round, with the first M of the constants.
    fn half(self, constants: &[u64], power: Power, s: &mut [u64; M])
        requires { M ≤ length constants.now }
        ensures { s.new ≡ half (first_row M self.entry.small.matrix) constants.now 0 (exponent_of power) s.old }
    {
        self.small.mix(constants, s);
        raise_each(power, s);
    }

    fn round(self, r: usize, s: &mut [u64; M])
        requires { r < 7 }
        ensures { s.new ≡ round (first_row M self.entry.small.matrix) self.entry.constants.now r s.old }
    {
        self.half(&self.constants[2 * r * M..], Power::Seven, s);
        self.half(&self.constants[(2 * r + 1) * M..], Power::D, s);
    }

    // The permutation.
    pub fn permute(self, s: &mut [u64; M])
        ensures { s.new ≡ permuted (first_row M self.entry.small.matrix) self.entry.constants.now s.old }
    {
        for r in 0..7 {
            self.round(r, s);
        }
    }
}

// The first M of the constants taken off s.
fn unkey<const M: usize>(constants: &[u64], s: &mut [u64; M])
    requires enough { M ≤ length constants.now }
    requires elements { Elements constants.now }
    requires state { Elements s.old }
    ensures { s.new ≡ unkeyed constants.now 0 s.old }
{
    for (i, x) in s.iter_mut().enumerate() {
        *x = (Element { word: *x } - Element { word: constants[i] }).word;
    }
}

// What the reverse goes by: the inverse matrix, and the constants, which are elements, so that each can
// be taken off.
#[derive(Clone, Copy)]
pub struct RoundsBack<'a, const M: usize> {
    pub inverse: Circulant<M>,
    pub constants: &'a [u64],
    ghost enough: { length constants.now ≡ 14 * M },
    ghost elements: { Elements constants.now },
}

impl<'a, const M: usize> RoundsBack<'a, M> {
    // Half a round undone, with the first M of the constants.
    fn half_back(self, constants: &[u64], power: Power, s: &mut [u64; M])
        requires enough { M ≤ length constants.now }
        requires elements { Elements constants.now }
        ensures { s.new ≡ half_back (first_row M self.entry.inverse) constants.now 0 (exponent_of power) s.old }
    {
        raise_each(power, s);
        unkey(constants, s);
        self.inverse.transform(s);
    }

    fn round_back(self, r: usize, s: &mut [u64; M])
        requires { r < 7 }
        ensures { s.new ≡ round_back (first_row M self.entry.inverse) self.entry.constants.now r s.old }
    {
        self.half_back(&self.constants[(2 * r + 1) * M..], Power::Seven, s);
        self.half_back(&self.constants[2 * r * M..], Power::D, s);
    }

    // The reverse.
    pub fn reverse(self, s: &mut [u64; M])
        ensures { s.new ≡ reversed (first_row M self.entry.inverse) self.entry.constants.now s.old }
    {
        for r in (0..7).rev() {
            self.round_back(r, s);
        }
    }
}
