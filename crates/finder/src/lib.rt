#![tactic(auto)]

pub mod clash;
pub mod finding;
pub mod laws;
mod showing;
