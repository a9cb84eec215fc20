ghost use Rattle.std.specs.Prelude.{◌≡◌};
ghost use Rattle.exports.specs.Answers.{write_answer, code_of, digest_answer, digest_written};

use crate::refusal::Refusal;
use sha256::digest;

/// Writes the SHA-256 digest of a message at the front of a buffer, which is left as it is where it is too short.
pub fn write_digest(message: &[u8], buffer: &mut [u8]) -> Result<(), Refusal>
    ensures answer { result ≡ write_answer buffer.old }
    ensures after { buffer.new ≡ digest_written message.now buffer.old }
{
    let front = buffer.first_chunk_mut().ok_or(Refusal::ShortBuffer)?;
    *front = digest(&[], message);
    Ok(())
}

/// `write_digest` with a number for its answer, as C wants it: 0, or 14 where the buffer is too short. It says by itself what is
/// left in the buffer, for those who read no other contract.
pub fn tender_sha256(message: &[u8], buffer: &mut [u8]) -> u32
    ensures answer { result ≡ digest_answer buffer.old }
    ensures after { buffer.new ≡ digest_written message.now buffer.old }
{
    code(write_digest(message, buffer))
}

// C has no `Result`: an answer is 0, or the number of the refusal. It is made here and not in the static library, on which no
// crate can stand, so that the tests run what C gets.
fn code(answer: Result<(), Refusal>) -> u32
    ensures { result ≡ code_of answer }
{
    match answer {
        Ok(()) => 0,
        Err(refusal) => u32::from(refusal.number()),
    }
}
