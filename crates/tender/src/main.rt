//! Runs the script on standard input, and writes its answers to standard output.

#![tactic(auto)]

use std::alloc::Global;
use std::io;
use std::io::{Read, Write};

fn main(rt: HostRuntime) -> io::Result<()> {
    let heap = rt.alloc();
    let input = read_script(heap, rt.stdin())?;
    let output = script::run(heap, &input)?;
    rt.stdout().write_all(&output)
}

// The whole script, or one byte past the limit, which is enough to tell that it is too long. The limit is cast, since there is no
// From from usize to u64.
fn read_script<R: Read + Drop>(heap: Global, source: R) -> io::Result<Vec<u8>> {
    let most = script::LIMIT as u64 + 1;
    let mut input = Vec::new(heap);
    source.take(most).read_to_end(&mut input)?;
    Ok(input)
}

#[cfg(test)]
mod tests {
    use super::*;
    use std::test::Fail;

    // Runs a script of `len` line feeds, and says how many bytes were read and written.
    fn blank_lines(heap: Global, len: usize) -> io::Result<(usize, usize)> {
        let source = vec![in heap; b'\n'; len]?;
        let input = read_script(heap, source.as_slice())?;
        let output = script::run(heap, &input)?;
        Ok((input.len(), output.len()))
    }

    #[test]
    fn reads_no_more_than_tells_the_length(rt: HostRuntime) -> Result<(), Fail> {
        let heap = rt.alloc();
        assert_eq!(rt; blank_lines(heap, 0)?, (0, 0));
        assert_eq!(rt; blank_lines(heap, 3)?, (3, 39));
        // 9 lines of 13 bytes, 90 of 14, 900 of 15, 9,000 of 16 and 6,385 of 17
        assert_eq!(rt; blank_lines(heap, 16_384)?, (16_384, 267_422));
        // 0 refused 61
        assert_eq!(rt; blank_lines(heap, 16_385)?, (16_385, 13));
        assert_eq!(rt; blank_lines(heap, 40_000)?, (16_385, 13));
        Ok(())
    }
}
