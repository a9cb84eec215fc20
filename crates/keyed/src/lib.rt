//! Keyed functions and commitments, as traits that generic code can rest on, and those of the product.

#![tactic(auto)]

mod commitment;
mod commitments;
mod function;
mod hmac_function;
mod prepared;
mod refusal;

pub use commitment::Commitment;
pub use commitments::{HashCommitment, HmacCommitment};
pub use function::{KeyedFunction, call_once};
pub use hmac_function::HmacFunction;
pub use prepared::PreparedHmac;
pub use refusal::Refusal;
