ghost use Rattle.std.specs.Prelude.{◌≡◌, ◌++◌};
ghost use Rattle.sha256.specs.Hash.{sha256};
ghost use Rattle.sha256.specs.Laws.{Laws};

use crate::hasher::Hasher;

/// The SHA-256 digest of a prefix followed by a message. Hashing in two parts is hashing the whole, whatever the cut.
#[tactic(auto, using(crate::proofs::Parts::in_parts, crate::proofs::Published::laws))]
pub fn digest(prefix: &[u8], message: &[u8]) -> [u8; 32]
    ensures value { result ≡ sha256 (prefix.now ++ message.now) }
    ensures laws { Laws }
{
    let mut hasher = Hasher::new();
    hasher.update(prefix);
    hasher.update(message);
    hasher.finish()
}
