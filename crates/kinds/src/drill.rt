ghost use Rattle.kinds.specs.Kinds.{drill};
ghost use Rattle.std.proofs.Common.{rules};

use crate::kind::Kind;
use field::element::Element;

// The kind for drills and tests: so small that its digests can be worked out by hand.
#[derive(Clone, Copy, Debug)]
pub struct Drill;

impl Kind for Drill {
    const NUMBER: u8 = 0;

    const CAPACITY: usize = 1;

    const DIGEST: usize = 1;

    ghost NUMBER = { 0 };

    ghost CAPACITY = { 1 };

    ghost DIGEST = { 1 };

    ghost mapping = { drill };

    ghost sound = { Prim.search rules };

    fn mix(&self, state: &mut [u64]) {
        let s0 = Element { word: state[0] };
        let s1 = Element { word: state[1] };
        let s2 = Element { word: state[2] };
        let twice0 = s0 + s0;
        let thrice0 = twice0 + s0;
        let twice2 = s2 + s2;
        let u = s1 + twice2;
        let t = u + thrice0;
        state[0] = (s0 + t).word;
        state[1] = t.word;
    }
}
