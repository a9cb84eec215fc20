ghost use Rattle.std.specs.Prelude.{◌≡◌};
ghost use Rattle.keyed.specs.Tables.{hmac_table};
ghost use Rattle.std.proofs.Common.{lit<};
ghost use Rattle.sha256.proofs.Digests.{hmac_front_bytes};

use crate::function::KeyedFunction;
use crate::prepared::PreparedHmac;
use crate::refusal::{Refusal, check_length};
use sha256::HmacKey;

/// Keyed function 2: the first 16 bytes of HMAC-SHA-256.
pub struct HmacFunction;

impl KeyedFunction for HmacFunction {
    const NUMBER: u8 = 2;

    ghost NUMBER = { 2 };

    type Prepared = PreparedHmac;

    ghost table = { hmac_table };

    ghost made_from = { λ p. p.key };

    ghost small = { lit< tt };

    ghost entries = { unfold hmac_table in hmac_front_bytes };

    fn prepare(key: &[u8; 16]) -> PreparedHmac {
        PreparedHmac {
            key: *key,
            hmac: HmacKey::new(key),
        }
    }

    fn call(key: &PreparedHmac, input: &[u8]) -> Result<[u8; 16], Refusal> {
        check_length(input)?;
        Ok(half_mac(key, input))
    }
}

// The first half of the authentication code.
#[tactic(auto, using(sha256::proofs::Prepared::mac_is_hmac), unfolding(crate::specs::Tables::hmac_table))]
fn half_mac(key: &PreparedHmac, input: &[u8]) -> [u8; 16]
    ensures { result ≡ hmac_table key.now.key input.now }
{
    *key.hmac.mac(input).first_chunk().unwrap()
}
