ghost use Rattle.std.specs.Prelude.{◌≡◌, ℕ, ◌<◌, List};
ghost use Rattle.blocks.specs.Bytes.{Bytes};
ghost use Rattle.keyed.specs.Answers.{table_answer};

use crate::refusal::Refusal;

/// A commitment: a fixed table from 16 opening bytes and a message to 32 bytes.
///
/// An implementor owes
/// - a `NUMBER` that no other commitment has, the same as the ghost `NUMBER`;
/// - the ghost `table`, with the law that each entry is 32 bytes, for opening bytes and messages of any length;
/// - `commit`, which answers from the table for a message of at most 65,536 bytes, and refuses a longer one.
///
/// Code that is generic over commitments rests on these alone.
pub trait Commitment {
    /// The commitment's number.
    // A trait for this and `id` alone would be one more to import, and would give a type one number for both kinds.
    const NUMBER: u8;

    ghost NUMBER: { ℕ };

    ghost table: { List ℕ → List ℕ → List ℕ };

    /// `NUMBER`, as a call.
    fn id() -> u8
        ensures { result ≡ NUMBER }
    {
        Self::NUMBER
    }

    /// The table's entry for the opening bytes and the message.
    fn commit(opening: &[u8; 16], message: &[u8]) -> Result<[u8; 32], Refusal>
        ensures { result ≡ table_answer table opening.now message.now };

    ghost small: { NUMBER < 256 };

    ghost entries: { (opening message : List ℕ) → Bytes 32 (table opening message) };
}
