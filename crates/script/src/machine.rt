ghost use Rattle.std.specs.Prelude.{◌≡◌, ◌-◌, ◌==◌, cond, take, length, slice_index, ◌++◌, IfOk, OnOk, string_bytes};
ghost use Rattle.script.specs.Lines.{line_feed};
ghost use Rattle.script.specs.Commands.{command_of};
ghost use Rattle.script.specs.Answers.{answer_to, answer_line};
ghost use Rattle.script.specs.Output.{output_of};
ghost use Rattle.script.specs.Laws.{LinesAreScript, DecimalDigits, DealIsLine, EachLineAnswered};

use crate::answer::Answer;
use crate::command::Command;
use crate::refusal::Refusal;
use std::alloc::{AllocError, Global};

/// The bytes that a script may have.
pub const LIMIT: usize = 16_384;

/// The output of a script: an answer to each line, under the line's number.
#[tactic(auto, using(crate::proofs::Lines::lines_are_script, crate::proofs::Outputs::decimal_digits, crate::proofs::Forms::deal_is_line, crate::proofs::Outputs::each_line_answered, crate::proofs::Outputs::output_of_answers))]
pub fn run(heap: Global, script: &[u8]) -> Result<Vec<u8>, AllocError>
    ensures value { IfOk result (λ output. output.items ≡ output_of script.now) }
    ensures lines { LinesAreScript }
    ensures decimals { DecimalDigits }
    ensures deal { DealIsLine }
    ensures each { EachLineAnswered }
{
    // Bytes and not text: answers to later commands will repeat bytes of the script, which need not be UTF-8.
    let mut output = Vec::new(heap);
    if script.len() > LIMIT {
        // The whole script is refused under the number 0.
        push_answer(&mut output, 0, Err(Refusal::TooLong))?;
        return Ok(output);
    }
    for (number, piece) in (1..).zip(script.split_inclusive(ends_line)) {
        push_answer(&mut output, number, answer(line_of(piece)))?;
    }
    Ok(output)
}

fn ends_line(byte: &u8) -> bool
    ensures { result ≡ (byte.now == line_feed) }
{
    *byte == b'\n'
}

// A piece of a script without the line feed that may end it.
fn line_of(piece: &[u8]) -> &[u8]
    ensures { result.now ≡ cond (slice_index piece.now (length piece.now - 1) == line_feed) (take (length piece.now - 1) piece.now) piece.now }
{
    match piece {
        [line @ .., b'\n'] => line,
        _ => piece,
    }
}

fn answer(line: &[u8]) -> Result<Answer, Refusal>
    ensures { result ≡ answer_to (command_of line.now) }
{
    Command::try_from(line)?.answer()
}

fn push_answer(
    output: &mut Vec<u8>,
    number: usize,
    answer: Result<Answer, Refusal>,
) -> Result<(), AllocError>
    ensures { OnOk result (output.new.items ≡ output.old.items ++ answer_line number answer) }
{
    let line = output_line(*output.allocator(), number, answer)?;
    output.extend_from_slice(line.as_bytes())
}

fn output_line(
    heap: Global,
    number: usize,
    answer: Result<Answer, Refusal>,
) -> Result<String, AllocError>
    ensures { IfOk result (λ line. string_bytes line ≡ answer_line number answer) }
{
    match answer {
        Ok(answer) => format!(in heap; "{number} {answer}\n"),
        Err(refusal) => format!(in heap; "{number} {refusal}\n"),
    }
}
