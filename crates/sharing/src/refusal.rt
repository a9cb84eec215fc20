ghost use Rattle.std.specs.Prelude.{◌≡◌, Some};
ghost use Rattle.sharing.specs.Refusals.{number_of, text_of};

use std::error::Error;
use std::fmt;

/// Why a call was refused.
#[derive(Clone, Copy, Debug, PartialEq, Eq)]
pub enum Refusal {
    /// Not 2 ≤ t ≤ n ≤ 8.
    Parameters,
    /// A rank that is not below the number of shares.
    Rank,
    /// A mask that is no share mask.
    Mask,
    /// A group with a place above n.
    Group,
    /// Not exactly t places within n.
    Quorum,
}

impl Refusal {
    // A method and no From: its name says what the number is.
    /// The number under which the refusal is known.
    pub fn number(self) -> u8
        ensures { result ≡ number_of self }
    {
        match self {
            Refusal::Parameters => 11,
            Refusal::Rank => 71,
            Refusal::Mask => 72,
            Refusal::Group => 73,
            Refusal::Quorum => 74,
        }
    }
}

// By hand, as in each crate for its own enum: a derive would state no text.
impl fmt::Display for Refusal {
    ghost output = { λ refusal. Some (text_of refusal) };

    fn fmt<W: fmt::Write>(&self, f: &mut fmt::Formatter<W>) -> fmt::Result {
        let number = self.number();
        write!(f, "refused {number}")
    }
}

impl Error for Refusal {}
