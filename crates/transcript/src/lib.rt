// All lines of a script at once, and what holds of every reading.
#![tactic(auto)]

pub mod all_lines;
pub mod laws;
