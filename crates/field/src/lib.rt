#![tactic(auto)]

pub mod arithmetic;
pub mod element;
pub mod lanes;
pub mod laws;
pub mod power;
pub mod words;
