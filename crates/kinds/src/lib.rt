#![tactic(auto)]

pub mod denial;
pub mod drill;
pub mod kind;
pub mod permuting;
pub mod words;
