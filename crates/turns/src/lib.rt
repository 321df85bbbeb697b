// What one command does to a lot of any kind, and the line that it gives.
#![tactic(auto)]

pub mod answers;
pub mod asking;
pub mod filling;
