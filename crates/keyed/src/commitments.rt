ghost use Rattle.std.specs.Prelude.{◌≡◌, ◌++◌};
ghost use Rattle.keyed.specs.Tables.{hash_commitment, hmac_commitment};
ghost use Rattle.sha256.proofs.Digests.{sha256_length, sha256_bytes, hmac_length, hmac_bytes};
ghost use Rattle.std.proofs.Common.{lit<};

use crate::commitment::Commitment;
use crate::refusal::{Refusal, check_length};
use sha256::{HmacKey, digest};

/// Commitment 1: SHA-256 of the opening bytes followed by the message.
pub struct HashCommitment;

impl Commitment for HashCommitment {
    const NUMBER: u8 = 1;

    ghost NUMBER = { 1 };

    ghost table = { hash_commitment };

    ghost small = { lit< tt };

    ghost entries = { λ opening message. record { size = sha256_length (opening ++ message); small = sha256_bytes (opening ++ message) } };

    fn commit(opening: &[u8; 16], message: &[u8]) -> Result<[u8; 32], Refusal> {
        check_length(message)?;
        Ok(digest(opening, message))
    }
}

/// Commitment 2: HMAC-SHA-256 of the message, with the opening bytes as its key.
pub struct HmacCommitment;

impl Commitment for HmacCommitment {
    const NUMBER: u8 = 2;

    ghost NUMBER = { 2 };

    ghost table = { hmac_commitment };

    ghost small = { lit< tt };

    ghost entries = { λ opening message. record { size = hmac_length opening message; small = hmac_bytes opening message } };

    #[tactic(auto, using(sha256::proofs::Prepared::mac_is_hmac))]
    fn commit(opening: &[u8; 16], message: &[u8]) -> Result<[u8; 32], Refusal> {
        check_length(message)?;
        Ok(HmacKey::new(opening).mac(message))
    }
}
