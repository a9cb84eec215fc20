//! Runs the calls of hashing, keyed functions and commitments on published vectors and on many inputs, and prints what came
//! out, to be compared with the documents and with another implementation.

#![tactic(auto)]

mod hashes;
mod tables;

use std::io;

fn main(rt: HostRuntime) -> io::Result<()> {
    hashes::print_all(&rt)?;
    tables::print_all(&rt)
}

#[cfg(test)]
mod tests {
    use std::test::Fail;

    // A contract of Display says what is written where it succeeds, and not that it does.
    #[test]
    fn refusals_are_written(rt: HostRuntime) -> Result<(), Fail> {
        let heap = rt.alloc();
        assert_eq!(rt;
            format!(in heap; "{}", exports::Refusal::ShortBuffer)?.as_str(),
            "refused 14"
        );
        assert_eq!(rt;
            format!(in heap; "{}", keyed::Refusal::TooLong)?.as_str(),
            "refused 17"
        );
        Ok(())
    }
}
