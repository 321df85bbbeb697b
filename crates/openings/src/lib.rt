#![tactic(auto)]

pub mod checking;
pub mod climbing;
pub mod opening;
pub mod operands;
pub mod site;
pub mod words;
