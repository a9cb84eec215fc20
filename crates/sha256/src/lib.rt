//! SHA-256 of a prefix followed by a message, and HMAC-SHA-256 with a key that is prepared once.

#![tactic(auto)]

mod compress;
mod constants;
mod hash;
mod hasher;
mod hmac;
mod padding;
mod round;
mod schedule;
mod word;

pub use hash::digest;
pub use hmac::HmacKey;
