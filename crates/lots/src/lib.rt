// A lot of calibration records: what stations fill, the tree over its places, and the lot once it is closed.
#![tactic(auto)]

pub mod closed;
pub mod leaves;
pub mod lot;
pub mod table;
