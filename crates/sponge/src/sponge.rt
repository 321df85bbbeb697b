ghost use Rattle.field.specs.Field.{Elements};

pub mod stream;

// A state that is fed element by element, and how many elements came since a block began. A kind uses the front of
// the state, and the count modulo its rate, so that the invariant is free of the kind.
#[derive(Clone, Copy)]
pub struct Sponge {
    state: [u64; 16],
    filled: usize,
    ghost elements: { Elements state },
}
