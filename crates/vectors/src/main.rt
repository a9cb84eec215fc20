//! Runs the library's calls on every input and prints a checksum of the answers, to be compared with another implementation.

#![tactic(auto)]

use checksum::Checksum;
use sharing::{Refusal, Scheme, binomial};
use std::io;

// The checksum of what is added for each pair of bytes.
fn over_pairs<F: Fn(&mut Checksum, u8, u8)>(add: F) -> u32
    requires { F.IsAlwaysCallable add }
{
    let mut sum = Checksum::new();
    for a in 0..=u8::MAX {
        for b in 0..=u8::MAX {
            add(&mut sum, a, b);
        }
    }
    sum.value()
}

// The checksum of a call's answers to all pairs of bytes.
fn answers<T: Into<u32>, F: Fn(u8, u8) -> Result<T, Refusal>>(call: F) -> u32
    requires { F.IsAlwaysCallable call }
{
    over_pairs(|sum, a, b| add_answer(sum, call(a, b)))
}

fn add_answer<T: Into<u32>>(sum: &mut Checksum, answer: Result<T, Refusal>) {
    match answer {
        Ok(answer) => sum.add(answer.into()),
        Err(refusal) => sum.add_refusal(refusal.number()),
    }
}

fn masks_and_ranks(scheme: &Scheme) -> u32 {
    let mut sum = Checksum::new();
    for x in 0..=u8::MAX {
        add_answer(&mut sum, scheme.mask_of(x));
        add_answer(&mut sum, scheme.rank_of(x));
    }
    sum.value()
}

fn units(scheme: &Scheme) -> u32 {
    over_pairs(|sum, place, rank| {
        sum.add(u32::from(scheme.has_rank(place, rank)));
        // What is printed fixes the number that stands for none. There is no From from usize to u32.
        let at = scheme.share_at(place, rank);
        sum.add(at.map_or(1_000_000, |at| (at & 0xffff) as u32));
    })
}

fn print_scheme(rt: &HostRuntime, n: u8, t: u8) -> io::Result<()> {
    let Ok(scheme) = Scheme::new(n, t) else {
        return Ok(());
    };
    let masks = masks_and_ranks(&scheme);
    let units = units(&scheme);
    let split = answers(|quorum, rank| scheme.falls_to(quorum, rank));
    let equal = answers(|a, b| scheme.hold_equal_shares(a, b));
    println!(rt; "sharing {n} {t} masks {masks} units {units} split {split} equal {equal}")
}

fn main(rt: HostRuntime) -> io::Result<()> {
    // By its bare name the library's function gets no proof.
    let binomials = answers(|a, b| binomial(a, b));
    let parameters = answers(|n, t| Scheme::new(n, t).map(|scheme| scheme.shares()));
    println!(rt; "sharing binomials {binomials} parameters {parameters}")?;
    for n in 2..=8 {
        for t in 2..=8 {
            print_scheme(&rt, n, t)?;
        }
    }
    Ok(())
}

#[cfg(test)]
mod tests {
    use super::*;
    use std::test::Fail;

    // A contract of Display says what is written where it succeeds, and not that it does.
    #[test]
    fn refusals_are_written(rt: HostRuntime) -> Result<(), Fail> {
        let heap = rt.alloc();
        assert_eq!(rt;
            format!(in heap; "{}", Refusal::Parameters)?.as_str(),
            "refused 11"
        );
        assert_eq!(rt;
            format!(in heap; "{}", Refusal::Rank)?.as_str(),
            "refused 71"
        );
        assert_eq!(rt;
            format!(in heap; "{}", Refusal::Mask)?.as_str(),
            "refused 72"
        );
        assert_eq!(rt;
            format!(in heap; "{}", Refusal::Group)?.as_str(),
            "refused 73"
        );
        assert_eq!(rt;
            format!(in heap; "{}", Refusal::Quorum)?.as_str(),
            "refused 74"
        );
        Ok(())
    }
}
