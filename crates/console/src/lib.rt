// What the programs share: reading standard input, running a corpus and a script, and writing words and refusals.
#![tactic(auto)]

pub mod corpus;
pub mod input;
pub mod no_case;
pub mod output;
pub mod scripts;
