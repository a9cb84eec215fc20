ghost use Rattle.std.specs.Prelude.{◌≡◌, ◌∷◌, replicate};
ghost use Rattle.sha256.specs.Hash.{zeros_after, length_field};

// A one bit and zeros, as many as a padding has at most. A padding takes a slice of it: nothing has to be filled.
pub(crate) fn one_and_zeros() -> [u8; 64]
    ensures { result ≡ 128 ∷ replicate 63 0 }
{
    let mut bytes = [0; 64];
    bytes[0] = 0x80;
    bytes
}

// How many zero bytes follow the one bit after `count` bytes. It is cast, since there is no From from u64 to usize.
pub(crate) fn zeros_after(count: u64) -> usize
    ensures { result ≡ zeros_after count }
{
    ((119 - count % 64) % 64) as usize
}

// The length of `count` bytes in bits.
pub(crate) fn length_field(count: u64) -> [u8; 8]
    ensures { result ≡ length_field count }
{
    count.wrapping_mul(8).to_be_bytes()
}
