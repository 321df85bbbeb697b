// A script run one line per call, over a lot of the kind that it names.
#![tactic(auto)]

pub mod any;
pub mod runner;
pub mod stage;
pub mod waiting;
