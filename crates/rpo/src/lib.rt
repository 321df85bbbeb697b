#![tactic(auto)]

pub mod laws;
pub mod matrix;
pub mod permutation;
pub mod rows;
pub mod sizes;
