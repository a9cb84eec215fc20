ghost use Rattle.std.specs.Prelude.{◌≡◌, Some, length};
ghost use Rattle.keyed.specs.Refusals.{number_of, text_of};
ghost use Rattle.keyed.specs.Answers.{length_answer};

use std::error::Error;
use std::fmt;

// The longest input of a keyed function, and the longest message of a commitment.
const LONGEST: usize = 65_536;

/// Why a call was refused.
#[derive(Clone, Copy, Debug, PartialEq, Eq)]
pub enum Refusal {
    /// More than 65,536 bytes.
    TooLong,
}

impl Refusal {
    // A method and no From: its name says what the number is.
    /// The number under which the refusal is known.
    pub fn number(self) -> u8
        ensures { result ≡ number_of self }
    {
        match self {
            Refusal::TooLong => 17,
        }
    }
}

// By hand, as in each crate for its own enum: a derive would state no text.
impl fmt::Display for Refusal {
    ghost output = { λ refusal. Some (text_of refusal) };

    fn fmt<W: fmt::Write>(&self, f: &mut fmt::Formatter<W>) -> fmt::Result {
        let number = self.number();
        write!(f, "refused {number}")
    }
}

impl Error for Refusal {}

// Whether the input is not too long. Each call asks it by itself: if a method of the trait asked for all, what it calls would
// be a public method that has no limit.
pub(crate) fn check_length(input: &[u8]) -> Result<(), Refusal>
    ensures { result ≡ length_answer (length input.now) }
{
    if input.len() > LONGEST {
        return Err(Refusal::TooLong);
    }
    Ok(())
}
