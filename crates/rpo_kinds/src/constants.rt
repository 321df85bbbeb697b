ghost use Rattle.field.specs.Field.{Elements};

pub mod derive;

// The round constants of a kind, N of them, each an element.
#[derive(Clone, Copy)]
pub struct RoundConstants<const N: usize> {
    pub(crate) words: [u64; N],
    ghost elements: { Elements words },
}
