// Commands read from a script of bytes, and the faults of the script's own layer.
#![tactic(auto)]

pub mod commands;
pub mod fault;
pub mod numbers;
pub mod orders;
pub mod phases;
pub mod reading;
pub mod verbs;
