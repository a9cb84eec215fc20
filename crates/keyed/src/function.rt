ghost use Rattle.std.specs.Prelude.{◌≡◌, ℕ, ◌<◌, List};
ghost use Rattle.blocks.specs.Bytes.{Bytes};
ghost use Rattle.keyed.specs.Answers.{table_answer};

use crate::refusal::Refusal;

/// A keyed function: a fixed table from a key of 16 bytes and an input to 16 bytes.
///
/// An implementor owes
/// - a `NUMBER` that no other keyed function has, the same as the ghost `NUMBER`;
/// - the ghost `table`, with the law that each entry is 16 bytes, for keys and inputs of any length;
/// - a type `Prepared` for a key that was prepared once and serves for many inputs, and the ghost `made_from`, which names
///   the key that it was made from;
/// - `prepare`, which makes one from a key;
/// - `call`, which answers from the table for an input of at most 65,536 bytes, and refuses a longer one.
///
/// Code that is generic over keyed functions rests on these alone, as `call_once` does.
pub trait KeyedFunction {
    /// The function's number.
    // A trait for this and `id` alone would be one more to import, and would give a type one number for both kinds.
    const NUMBER: u8;

    /// A prepared key.
    type Prepared: Drop;

    ghost NUMBER: { ℕ };

    ghost table: { List ℕ → List ℕ → List ℕ };

    ghost made_from: { Self.Prepared → List ℕ };

    /// `NUMBER`, as a call.
    fn id() -> u8
        ensures { result ≡ NUMBER }
    {
        Self::NUMBER
    }

    /// Prepares a key.
    fn prepare(key: &[u8; 16]) -> Self::Prepared
        ensures { made_from result ≡ key.now };

    /// The table's entry for the key that `key` was made from and the input.
    fn call(key: &Self::Prepared, input: &[u8]) -> Result<[u8; 16], Refusal>
        ensures { result ≡ table_answer table (made_from key.now) input.now };

    ghost small: { NUMBER < 256 };

    ghost entries: { (key input : List ℕ) → Bytes 16 (table key input) };
}

/// A single call, with a key that is prepared for it alone.
pub fn call_once<K: KeyedFunction>(key: &[u8; 16], input: &[u8]) -> Result<[u8; 16], Refusal>
    ensures { result ≡ table_answer K.KeyedFunction.table key.now input.now }
{
    let prepared = K::prepare(key);
    K::call(&prepared, input)
}
