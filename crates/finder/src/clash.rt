// What two openings of one place show that are both accepted and differ: pairs of digests of one level with one
// two-to-one hash, two records with one digest, or one record whose digest is all zeros and whether it is the second's.
#[derive(Clone, Copy, Debug, PartialEq, Eq)]
pub enum Clash {
    Pairs { level: usize },
    Records,
    ZeroRecord { second: bool },
}
