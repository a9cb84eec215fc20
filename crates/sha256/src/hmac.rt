ghost use Rattle.std.specs.Prelude.{◌≡◌, ◌≤◌, length};
ghost use Rattle.sha256.specs.Hmac.{zero_filled, key_block, midstate as midstate_of, prepared_key, digest_after, mac_of};
ghost use Rattle.sha256.specs.Laws.{PreparedIsHmac, ZerosAfterKey};

use crate::compress::compress;
use crate::constants::initial;
use crate::hash::digest;
use crate::hasher::Hasher;
use std::array;

/// A key prepared for HMAC-SHA-256: the hash after the key's block under each of the two pads. It is secret, so it is not
/// printed, and not compared byte by byte.
#[derive(Clone, Copy)]
pub struct HmacKey {
    inner: [u32; 8],
    outer: [u32; 8],
}

impl HmacKey {
    /// Prepares a key of any length.
    #[tactic(auto, using(crate::proofs::Prepared::zeros_after_key))]
    pub fn new(key: &[u8]) -> HmacKey
        ensures value { result ≡ prepared_key key.now }
        ensures zeros { ZerosAfterKey }
    {
        let block = key_block(key);
        HmacKey {
            inner: midstate(&block, 0x36),
            outer: midstate(&block, 0x5c),
        }
    }

    /// The message's authentication code under the key.
    #[tactic(auto, using(crate::proofs::Prepared::prepared_is_hmac))]
    pub fn mac(&self, message: &[u8]) -> [u8; 32]
        ensures value { result ≡ mac_of self.now message.now }
        ensures law { PreparedIsHmac }
    {
        let inner = digest_after(self.inner, message);
        digest_after(self.outer, &inner)
    }
}

// The key in a block, a longer one by its digest.
#[tactic(auto, unfolding(crate::specs::Hmac::key_block))]
fn key_block(key: &[u8]) -> [u8; 64]
    ensures { result ≡ key_block key.now }
{
    if key.len() <= 64 {
        zero_filled(key)
    } else {
        zero_filled(&digest(&[], key))
    }
}

// The bytes, and zeros after them.
fn zero_filled(bytes: &[u8]) -> [u8; 64]
    requires { length bytes.now ≤ 64 }
    ensures { result ≡ zero_filled bytes.now }
{
    let mut block = [0; 64];
    let end = bytes.len();
    block[..end].copy_from_slice(bytes);
    block
}

// The hash after a block under a pad. By the array's `map` the block alone would cost a third of what its compression does.
fn midstate(block: &[u8; 64], pad: u8) -> [u32; 8]
    ensures { result ≡ midstate_of pad block.now }
{
    let mut hash = initial();
    compress(&mut hash, &array::from_fn(|i| block[i] ^ pad));
    hash
}

// The digest of a block, which left the hash, and of bytes after it.
#[tactic(auto, unfolding(crate::specs::Hmac::digest_after))]
fn digest_after(hash: [u32; 8], bytes: &[u8]) -> [u8; 32]
    ensures { result ≡ digest_after hash bytes.now }
{
    let mut hasher = Hasher::after_block(hash);
    hasher.update(bytes);
    hasher.finish()
}
