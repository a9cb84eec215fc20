ghost use Rattle.std.specs.Prelude.{◌≡◌};
ghost use Rattle.sha256.specs.Hmac.{prepared_key};

use sha256::HmacKey;

/// A key prepared for keyed function 2: a short input then costs two compressions. It is secret, so it is not printed, and not
/// compared byte by byte.
#[derive(Clone, Copy)]
pub struct PreparedHmac {
    pub(crate) key: [u8; 16],
    pub(crate) hmac: HmacKey,
    ghost made: { hmac ≡ prepared_key key },
}
