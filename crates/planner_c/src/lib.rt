#![tactic(auto)]

// The planner for C and Rust programs. A slice is passed as a pointer and a length, an array as a pointer.
//
// Each function returns 0 or the number of a refusal, and writes three numbers to `values`: the results of the call, or
// the row and the entry position of the refusal (specs/Returned.antt). A refused call leaves the other lent buffers untouched.
pub mod conversions;
pub mod listings;
pub mod maps;
pub mod plan_files;
mod returned;
pub mod sessions;
