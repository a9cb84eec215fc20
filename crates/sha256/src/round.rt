ghost use Rattle.std.specs.Prelude.{◌≡◌};
ghost use Rattle.sha256.specs.Rounds.{round_of, rounds};

use crate::word::{big_sigma, choice, majority};

// The working variables.
#[derive(Clone, Copy)]
pub(crate) struct Working {
    pub(crate) a: u32,
    pub(crate) b: u32,
    pub(crate) c: u32,
    pub(crate) d: u32,
    pub(crate) e: u32,
    pub(crate) f: u32,
    pub(crate) g: u32,
    pub(crate) h: u32,
}

// The working variables before the first round.
impl From<[u32; 8]> for Working {
    ghost use Rattle.std.specs.Prelude.{◌≡◌};
    ghost use Rattle.sha256.specs.Compress.{working_of};

    ghost from_gives = { λ hash s. s ≡ working_of hash };

    #[tactic(auto, unfolding(crate::specs::Compress::working_of))]
    fn from([a, b, c, d, e, f, g, h]: [u32; 8]) -> Working {
        Working {
            a,
            b,
            c,
            d,
            e,
            f,
            g,
            h,
        }
    }
}

impl Working {
    #[tactic(auto, unfolding(crate::specs::Rounds::round_of))]
    fn round(self, k: u32, w: u32) -> Working
        ensures { result ≡ round_of self k w }
    {
        let t1 = self
            .h
            .wrapping_add(big_sigma::<6, 11, 25>(self.e))
            .wrapping_add(choice(self.e, self.f, self.g))
            .wrapping_add(k)
            .wrapping_add(w);
        let t2 = big_sigma::<2, 13, 22>(self.a).wrapping_add(majority(self.a, self.b, self.c));
        Working {
            a: t1.wrapping_add(t2),
            b: self.a,
            c: self.b,
            d: self.c,
            e: self.d.wrapping_add(t1),
            f: self.e,
            g: self.f,
            h: self.g,
        }
    }

    // Sixteen rounds written out, so that no working variable is moved: a fold over both arrays ran at 0.63 of OpenSSL's speed,
    // below the bar of 0.8 that this meets.
    pub(crate) fn sixteen_rounds(&mut self, k: &[u32; 16], w: &[u32; 16])
        ensures { self.new ≡ rounds self.old k.now w.now }
    {
        let s1 = self.round(k[0], w[0]);
        let s2 = s1.round(k[1], w[1]);
        let s3 = s2.round(k[2], w[2]);
        let s4 = s3.round(k[3], w[3]);
        let s5 = s4.round(k[4], w[4]);
        let s6 = s5.round(k[5], w[5]);
        let s7 = s6.round(k[6], w[6]);
        let s8 = s7.round(k[7], w[7]);
        let s9 = s8.round(k[8], w[8]);
        let s10 = s9.round(k[9], w[9]);
        let s11 = s10.round(k[10], w[10]);
        let s12 = s11.round(k[11], w[11]);
        let s13 = s12.round(k[12], w[12]);
        let s14 = s13.round(k[13], w[13]);
        let s15 = s14.round(k[14], w[14]);
        *self = s15.round(k[15], w[15]);
    }
}
