// The calls that C gets, in a form that it can use: the static library `ffi_c` exports them under their names. A call
// that can be refused answers with 0 where it is granted, else with the number of its refusal.
#![tactic(auto)]

mod code;
pub mod field_calls;
pub mod hash_calls;
pub mod opening_calls;
pub mod script_calls;
