use crate::hashes::pattern;
use checksum::Checksum;
use keyed::{
    Commitment, HashCommitment, HmacCommitment, HmacFunction, KeyedFunction, Refusal, call_once,
};
use std::convert::AsSlice;
use std::io;

// What came of a call: its name and number, the length of the input, and the answer.
fn print_answer<T: AsSlice<u8> + Drop>(
    rt: &HostRuntime,
    name: &str,
    number: u8,
    length: usize,
    answer: Result<T, Refusal>,
) -> io::Result<()> {
    match answer {
        Ok(bytes) => {
            let text = hex::encode(rt.alloc(), bytes)?;
            println!(rt; "{name} {number} {length} {text}")
        }
        Err(refusal) => println!(rt; "{name} {number} {length} {refusal}"),
    }
}

// The checksum of a call's answers to each front of the pattern.
fn print_lengths<T: AsSlice<u8> + Drop, F: Fn(&[u8]) -> Result<T, Refusal>>(
    rt: &HostRuntime,
    name: &str,
    number: u8,
    call: F,
) -> io::Result<()>
    requires { F.IsAlwaysCallable call }
{
    let bytes = pattern::<200>();
    let mut sum = Checksum::new();
    for length in 0..=bytes.len() {
        match call(&bytes[..length]) {
            Ok(answer) => sum.add_bytes(answer.as_slice()),
            Err(refusal) => sum.add_refusal(refusal.number()),
        }
    }
    let sum = sum.value();
    println!(rt; "{name} {number} lengths {sum}")
}

// The functions below come in pairs, since the traits of keyed functions and of commitments have no bound in common. The number
// is asked by the constant in one pair and by the method in the other, so that both are run.
fn print_function<K: KeyedFunction>(
    rt: &HostRuntime,
    key: &[u8; 16],
    input: &[u8],
) -> io::Result<()> {
    let answer = call_once::<K>(key, input);
    print_answer(rt, "function", K::NUMBER, input.len(), answer)
}

fn print_commitment<C: Commitment>(
    rt: &HostRuntime,
    opening: &[u8; 16],
    message: &[u8],
) -> io::Result<()> {
    let answer = C::commit(opening, message);
    print_answer(rt, "commitment", C::NUMBER, message.len(), answer)
}

fn print_function_lengths<K: KeyedFunction>(rt: &HostRuntime, key: &[u8; 16]) -> io::Result<()> {
    let prepared = K::prepare(key);
    print_lengths(rt, "function", K::id(), |input| K::call(&prepared, input))
}

fn print_commitment_lengths<C: Commitment>(rt: &HostRuntime, opening: &[u8; 16]) -> io::Result<()> {
    print_lengths(
        rt,
        "commitment",
        C::id(),
        |message| C::commit(opening, message),
    )
}

fn print_inputs(rt: &HostRuntime, input: &[u8]) -> io::Result<()> {
    let secret = pattern::<16>();
    print_function::<HmacFunction>(rt, &secret, input)?;
    print_commitment::<HashCommitment>(rt, &secret, input)?;
    print_commitment::<HmacCommitment>(rt, &secret, input)
}

pub(crate) fn print_all(rt: &HostRuntime) -> io::Result<()> {
    print_inputs(rt, b"")?;
    print_inputs(rt, b"lot 7: 1200")?;
    print_function::<HmacFunction>(
        rt,
        b"Jefe\0\0\0\0\0\0\0\0\0\0\0\0",
        b"what do ya want for nothing?",
    )?;
    let secret = pattern::<16>();
    print_function_lengths::<HmacFunction>(rt, &secret)?;
    print_commitment_lengths::<HashCommitment>(rt, &secret)?;
    print_commitment_lengths::<HmacCommitment>(rt, &secret)?;
    let zeros = vec![in rt.alloc(); 0; 65_537]?;
    print_inputs(rt, &zeros[..65_536])?;
    print_inputs(rt, &zeros)
}
