//! The calls of `exports` under the names and conventions of C, linked as a static library. No other crate can stand on it.

#![tactic(auto)]

ghost use Rattle.std.specs.Prelude.{◌≡◌};
ghost use Rattle.exports.specs.Answers.{digest_answer, digest_written};

// The same call as in `exports`, since the kit builds a crate as a library or as a static library. It answers a number, since C
// has no `Result`.
/// Writes the SHA-256 digest of a message at the front of a buffer. Answers 0, or 14 where the buffer is shorter than that.
#[unsafe(no_mangle)]
pub extern "C" fn tender_sha256(message: &[u8], buffer: &mut [u8]) -> u32
    ensures answer { result ≡ digest_answer buffer.old }
    ensures after { buffer.new ≡ digest_written message.now buffer.old }
{
    exports::tender_sha256(message, buffer)
}
