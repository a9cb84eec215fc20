//! Calls for programs in C, and the same with a `Result`, as a library that other crates can stand on. `exports_c` has those for
//! C, for the linker.

#![tactic(auto)]

mod hashing;
mod refusal;

pub use hashing::{tender_sha256, write_digest};
pub use refusal::Refusal;
