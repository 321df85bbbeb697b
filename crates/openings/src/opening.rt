// A claim, which is a record or nothing for an empty place, and the path that is to lead from it to the root.
#[derive(Clone, Copy, PartialEq, Eq)]
pub struct Opening<'a> {
    pub claim: Option<&'a [u64]>,
    pub path: &'a [u64],
}
