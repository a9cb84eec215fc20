ghost use Rattle.std.specs.Prelude.{◌≡◌, ◌-◌, cond};
ghost use Rattle.script.specs.Commands.{is_digit, deal_of, command_of};
ghost use Rattle.script.specs.Answers.{answer_to};

use crate::answer::Answer;
use crate::refusal::Refusal;
use sharing::Scheme;

// What a line asks for.
#[derive(Clone, Copy, Debug, PartialEq, Eq)]
pub(crate) enum Command {
    // Deal for `n` units with threshold `t`.
    Deal { n: u8, t: u8 },
}

impl<'a> TryFrom<&'a [u8]> for Command {
    type Error = Refusal;

    ghost try_from_gives = { λ line command. command ≡ command_of line.now };

    // A line is a letter, a blank, and what the letter wants.
    fn try_from(line: &'a [u8]) -> Result<Command, Refusal> {
        match line {
            [letter, b' ', rest @ ..] => match char::from(*letter) {
                'd' => read_deal(rest),
                _ => Err(Refusal::NoCommand),
            },
            _ => Err(Refusal::NoCommand),
        }
    }
}

impl Command {
    pub(crate) fn answer(self) -> Result<Answer, Refusal>
        ensures { result ≡ answer_to (Ok self) }
    {
        match self {
            Command::Deal { n, t } => {
                let scheme = Scheme::new(n, t)?;
                Ok(Answer::Dealt(scheme.shares()))
            }
        }
    }
}

fn read_deal(rest: &[u8]) -> Result<Command, Refusal>
    ensures { result ≡ deal_of rest.now }
{
    match rest {
        [n, b' ', t] => Ok(Command::Deal {
            n: digit(*n)?,
            t: digit(*t)?,
        }),
        _ => Err(Refusal::NoCommand),
    }
}

// `char::to_digit` would answer a u32, to be narrowed again.
fn digit(byte: u8) -> Result<u8, Refusal>
    ensures { result ≡ cond (is_digit byte) (Ok (byte - 48)) (Err Refusal.NoCommand) }
{
    match byte {
        b'0'..=b'9' => Ok(byte - b'0'),
        _ => Err(Refusal::NoCommand),
    }
}
