//! Bytes, words, bits and arrays: definitions and laws for the crates that hash. It has no code of its own.

#![tactic(auto)]
