//! Scripts: each line of the input is answered by a line of the output.

#![tactic(auto)]

mod answer;
mod command;
mod machine;
mod refusal;

pub use machine::{LIMIT, run};
