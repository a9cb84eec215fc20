//! Sharing a key among units: each share goes to the units of one mask, and any `t` of `n` units have every share.

#![tactic(auto)]

mod examples;
mod group;
mod pascal;
mod refusal;
mod scheme;

pub use examples::examples_stand;
pub use pascal::binomial;
pub use refusal::Refusal;
pub use scheme::Scheme;
