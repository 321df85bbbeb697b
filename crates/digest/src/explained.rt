ghost use Rattle.std.specs.Prelude.{◌≡◌, ◌<◌, ◌+◌, ◌*◌, Some};
ghost use Rattle.rpo_kinds.specs.Names.{name_of};
ghost use Rattle.digest.specs.Explained.{sizes_text, blocks_text, filling_text};

use kinds::kind::Kind;
use rpo_kinds::names::KindName;
use std::fmt;

// The number of a kind and its sizes.
#[derive(Clone, Copy)]
pub struct Sizes {
    pub number: u8,
    pub capacity: usize,
    pub digest: usize,
    pub rate: usize,
    pub state: usize,
}

pub(crate) fn sizes_of<K: Kind>(name: KindName) -> Sizes
    ensures number { name_of result.number ≡ Some name }
    ensures capacity { result.capacity ≡ K.CAPACITY }
    ensures digest { result.digest ≡ K.DIGEST }
    ensures rate { result.rate ≡ 2 * K.DIGEST }
    ensures state { result.state ≡ K.CAPACITY + 2 * K.DIGEST }
{
    Sizes {
        number: name.number(),
        capacity: K::CAPACITY,
        digest: K::DIGEST,
        rate: K::rate(),
        state: K::state_len(),
    }
}

impl fmt::Display for Sizes {
    ghost output = { λ x. Some (sizes_text x.number x.capacity x.digest x.rate x.state) };

    fn fmt<W: fmt::Write>(&self, f: &mut fmt::Formatter<W>) -> fmt::Result {
        let number = self.number;
        let c = self.capacity;
        let w = self.digest;
        let r = self.rate;
        let m = self.state;
        write!(
            f,
            "number {number}, capacity {c}, digest {w}, rate {r}, state {m}"
        )
    }
}

// The blocks of a record of that length.
#[derive(Clone, Copy)]
pub struct Blocks {
    pub length: usize,
    pub rate: usize,
    ghost above_one: { 1 < rate },
}

impl fmt::Display for Blocks {
    ghost output = { λ x. Some (blocks_text x.length x.rate) };

    fn fmt<W: fmt::Write>(&self, f: &mut fmt::Formatter<W>) -> fmt::Result {
        let length = self.length;
        let rate = self.rate;
        let full = length / rate;
        let over = length % rate;
        write!(
            f,
            "record: {length} words, {full} full blocks of {rate}, {over} over"
        )
    }
}

// How the last of them is filled, and how often is mixed.
#[derive(Clone, Copy)]
pub struct Filling(pub Blocks);

impl fmt::Display for Filling {
    ghost output = { λ x. Some (filling_text x.0.length x.0.rate) };

    fn fmt<W: fmt::Write>(&self, f: &mut fmt::Formatter<W>) -> fmt::Result {
        let rate = self.0.rate;
        let full = self.0.length / rate;
        let over = self.0.length % rate;
        if over == 0 {
            write!(
                f,
                "filling: none; capacity element 0 starts at 0\nmixings: {full}"
            )
        } else {
            let zeros = rate - over - 1;
            let blocks = full + 1;
            write!(
                f,
                "filling: one 1 and {zeros} zeros; capacity element 0 starts at 1\nmixings: {blocks}"
            )
        }
    }
}
