//! Checksums of many answers, which the two programs of vectors print.

#![tactic(auto)]

ghost use Rattle.std.specs.Prelude.{◌≡◌, ℕ};
ghost use Rattle.checksum.specs.Sums.{sum_with, sum_after, past_answers};

use std::marker::Model;

/// A checksum of numbers in their order.
#[derive(Clone, Copy, Debug, Default, PartialEq, Eq)]
pub struct Checksum(u32);

impl Model for Checksum {
    ghost Value = { ℕ };

    ghost view = { λ checksum. checksum.0 };

    ghost inverse = { λ sum. record { 0 = sum } };
}

impl Checksum {
    /// The checksum of no numbers.
    pub fn new() -> Checksum
        ensures { result ≡ 0 }
    {
        Checksum(0)
    }

    /// The checksum as a number.
    pub fn value(self) -> u32
        ensures { result ≡ self }
    {
        self.0
    }

    /// Takes in a number.
    pub fn add(&mut self, number: u32)
        ensures { self.new ≡ sum_with self.old number }
    {
        *self = self.with(number);
    }

    /// Takes in bytes, each as a number.
    pub fn add_bytes(&mut self, bytes: &[u8])
        ensures { self.new ≡ sum_after self.old bytes.now }
    {
        *self = bytes
            .iter()
            .fold(*self, |sum, byte| sum.with(u32::from(*byte)));
    }

    /// Takes in a refusal, as its number past all answers: what the programs print fixes how.
    pub fn add_refusal(&mut self, number: u8)
        ensures { self.new ≡ sum_with self.old (past_answers number) }
    {
        self.add(1_000 + u32::from(number));
    }

    fn with(self, number: u32) -> Checksum
        ensures { result ≡ sum_with self number }
    {
        Checksum(self.0.wrapping_mul(31).wrapping_add(number))
    }
}
