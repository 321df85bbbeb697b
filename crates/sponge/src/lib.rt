#![tactic(auto)]

pub mod digest;
pub mod hash;
pub mod laws;
pub mod pair;
pub mod sponge;
