// What C and Rust link: the calls of `ffi` as a static library, each under the clauses that it has there.
#![tactic(auto)]

pub mod check_calls;
pub mod drill_calls;
pub mod field_calls;
pub mod find_calls;
pub mod hash_calls;
pub mod mix_calls;
pub mod script_calls;
pub mod state_calls;
