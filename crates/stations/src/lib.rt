// The eight stations of a lot, each with at most one record in hand.
#![tactic(auto)]

pub mod phase;
pub mod record;
pub mod slot;
pub mod station;
pub mod table;
