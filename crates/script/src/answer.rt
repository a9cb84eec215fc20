ghost use Rattle.std.specs.Prelude.{Some, Ok};
ghost use Rattle.script.specs.Answers.{words_of};

use std::fmt;

// What a line answers, if it is not refused.
#[derive(Clone, Copy, Debug, PartialEq, Eq)]
pub(crate) enum Answer {
    // The number of shares that were dealt.
    Dealt(u8),
}

impl fmt::Display for Answer {
    ghost output = { λ answer. Some (words_of (Ok answer)) };

    fn fmt<W: fmt::Write>(&self, f: &mut fmt::Formatter<W>) -> fmt::Result {
        match self {
            Answer::Dealt(count) => write!(f, "dealt {count}"),
        }
    }
}
