ghost use Rattle.std.specs.Prelude.{◌≡◌, Some, Err};
ghost use Rattle.script.specs.Answers.{number_of, words_of};
ghost use Rattle.script.specs.declared.refusal.Refusal.TheVariants.{Sharing};

use std::error::Error;
use std::fmt;

// Why a line, or a whole script, was refused.
#[derive(Clone, Copy, Debug, PartialEq, Eq)]
pub(crate) enum Refusal {
    Sharing(sharing::Refusal),
    // More than 16,384 bytes.
    TooLong,
    // A line of another form.
    NoCommand,
}

impl Refusal {
    // A method and no From: its name says what the number is.
    pub(crate) fn number(self) -> u8
        ensures { result ≡ number_of self }
    {
        match self {
            Refusal::Sharing(refusal) => refusal.number(),
            Refusal::TooLong => 61,
            Refusal::NoCommand => 62,
        }
    }
}

impl From<sharing::Refusal> for Refusal {
    ghost from_gives = { λ refusal made. made ≡ Sharing refusal };

    fn from(refusal: sharing::Refusal) -> Refusal {
        Refusal::Sharing(refusal)
    }
}

// By hand, as in each crate for its own enum: a derive would state no text.
impl fmt::Display for Refusal {
    ghost output = { λ refusal. Some (words_of (Err refusal)) };

    fn fmt<W: fmt::Write>(&self, f: &mut fmt::Formatter<W>) -> fmt::Result {
        let number = self.number();
        write!(f, "refused {number}")
    }
}

impl Error for Refusal {}
