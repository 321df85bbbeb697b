// The two powers of a round of the permutation. Each undoes the other.
#[derive(Clone, Copy, PartialEq, Eq, Debug)]
pub enum Power {
    Seven,
    D,
}
