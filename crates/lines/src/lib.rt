// The lines of a transcript.
#![tactic(auto)]

pub mod line;
pub mod writing;
