ghost use Rattle.std.specs.Prelude.{◌≡◌, Some};
ghost use Rattle.exports.specs.Refusals.{number_of, text_of};

use std::error::Error;
use std::fmt;

/// Why a call was refused.
#[derive(Clone, Copy, Debug, PartialEq, Eq)]
pub enum Refusal {
    /// A buffer that is shorter than what is to be written.
    ShortBuffer,
}

impl Refusal {
    // A method and no From: its name says what the number is.
    /// The number under which the refusal is known.
    pub fn number(self) -> u8
        ensures { result ≡ number_of self }
    {
        match self {
            Refusal::ShortBuffer => 14,
        }
    }
}

// By hand, as in each crate for its own enum: a derive would state no text.
impl fmt::Display for Refusal {
    ghost output = { λ refusal. Some (text_of refusal) };

    fn fmt<W: fmt::Write>(&self, f: &mut fmt::Formatter<W>) -> fmt::Result {
        let number = self.number();
        write!(f, "refused {number}")
    }
}

impl Error for Refusal {}
