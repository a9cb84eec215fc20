ghost use Rattle.std.specs.Prelude.{◌≡◌, fold};
ghost use Rattle.sha256.specs.Compress.{added_to, compressed};

use crate::constants::round_constants;
use crate::round::Working;
use crate::schedule::{block_words, next_words};

#[tactic(auto, unfolding(crate::specs::Compress::added_to))]
fn add_to(hash: &mut [u32; 8], s: Working)
    ensures { hash.new ≡ added_to hash.old s }
{
    let [a, b, c, d, e, f, g, h] = *hash;
    *hash = [
        a.wrapping_add(s.a),
        b.wrapping_add(s.b),
        c.wrapping_add(s.c),
        d.wrapping_add(s.d),
        e.wrapping_add(s.e),
        f.wrapping_add(s.f),
        g.wrapping_add(s.g),
        h.wrapping_add(s.h),
    ];
}

// Takes a block into the hash.
pub(crate) fn compress(hash: &mut [u32; 8], block: &[u8; 64])
    ensures { hash.new ≡ compressed hash.old block.now }
{
    let mut w = block_words(block);
    let mut s = Working::from(*hash);
    // Without the test the rounds would be called twice, before the loop and in it, which is no plainer.
    for (j, k) in round_constants().iter().enumerate() {
        s.sixteen_rounds(k, &w);
        if j < 3 {
            next_words(&mut w);
        }
    }
    add_to(hash, s);
}

// Takes blocks into the hash, one after the other.
pub(crate) fn compress_all(hash: &mut [u32; 8], blocks: &[[u8; 64]])
    ensures { hash.new ≡ fold compressed hash.old blocks.now }
{
    for block in blocks {
        compress(hash, block);
    }
}
