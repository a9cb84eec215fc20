use checksum::Checksum;
use exports::tender_sha256;
use sha256::{HmacKey, digest};
use std::io;

// The bytes that the sweeps are made on.
pub(crate) fn pattern<const N: usize>() -> [u8; N] {
    let mut bytes = [0; N];
    let mut next = 7u8;
    for byte in bytes.iter_mut() {
        *byte = next;
        next = next.wrapping_mul(5).wrapping_add(31);
    }
    bytes
}

// The digest of each front of the pattern, at each cut.
fn cuts() -> u32 {
    let bytes = pattern::<200>();
    let mut sum = Checksum::new();
    for length in 0..=bytes.len() {
        for cut in 0..=length {
            let (prefix, message) = bytes[..length].split_at(cut);
            sum.add_bytes(&digest(prefix, message));
        }
    }
    sum.value()
}

// The code of each front of the pattern, under keys of each length past a block.
fn codes() -> u32 {
    let bytes = pattern::<140>();
    let mut sum = Checksum::new();
    for key_length in 0..=bytes.len() {
        let key = HmacKey::new(&bytes[..key_length]);
        for length in 0..=bytes.len() {
            sum.add_bytes(&key.mac(&bytes[..length]));
        }
    }
    sum.value()
}

// What the call for C answers, given the first bytes of a buffer, and what it leaves in all of it.
fn buffers() -> u32 {
    let bytes = pattern::<64>();
    let mut sum = Checksum::new();
    for room in 0..=bytes.len() {
        let mut buffer = [255; 64];
        sum.add(tender_sha256(&bytes, &mut buffer[..room]));
        sum.add_bytes(&buffer);
    }
    sum.value()
}

fn print_digest(rt: &HostRuntime, message: &[u8]) -> io::Result<()> {
    let length = message.len();
    let text = hex::encode(rt.alloc(), digest(&[], message))?;
    println!(rt; "sha256 {length} {text}")
}

fn print_code(rt: &HostRuntime, key: &[u8], message: &[u8]) -> io::Result<()> {
    let text = hex::encode(rt.alloc(), HmacKey::new(key).mac(message))?;
    println!(rt; "hmac {text}")
}

pub(crate) fn print_all(rt: &HostRuntime) -> io::Result<()> {
    print_digest(rt, b"")?;
    print_digest(rt, b"abc")?;
    print_digest(
        rt,
        b"abcdbcdecdefdefgefghfghighijhijkijkljklmklmnlmnomnopnopq",
    )?;
    print_code(
        rt,
        b"Jefe\0\0\0\0\0\0\0\0\0\0\0\0",
        b"what do ya want for nothing?",
    )?;
    let cuts = cuts();
    let codes = codes();
    let buffers = buffers();
    println!(rt; "sha256 cuts {cuts}")?;
    println!(rt; "sha256 buffers {buffers}")?;
    println!(rt; "hmac keys {codes}")
}
