ghost use Rattle.std.specs.Prelude.{◌≡◌, ◌+◌, ◌≤◌, length};
ghost use Rattle.blocks.specs.Words.{word_at};
ghost use Rattle.sha256.specs.Rounds.{next_word};
ghost use Rattle.sha256.specs.Inner.{next_window};
ghost use Rattle.sha256.specs.Compress.{block_words};

use crate::word::small_sigma;
use std::array;

// The word of four bytes.
fn word(bytes: &[u8; 4]) -> u32
    ensures { result ≡ word_at bytes.now 0 }
{
    u32::from_be_bytes(*bytes)
}

// The first sixteen words of the schedule.
pub(crate) fn block_words(block: &[u8; 64]) -> [u32; 16]
    ensures { result ≡ block_words block.now }
{
    let (words, _) = block.as_chunks();
    array::from_fn(|i| word(&words[i]))
}

// A word from those 2, 7, 15 and 16 places before it.
#[tactic(auto, unfolding(crate::specs::Rounds::next_word))]
fn next_word(w2: u32, w7: u32, w15: u32, w16: u32) -> u32
    ensures { result ≡ next_word w2 w7 w15 w16 }
{
    small_sigma::<17, 19, 10>(w2)
        .wrapping_add(w7)
        .wrapping_add(small_sigma::<7, 18, 3>(w15))
        .wrapping_add(w16)
}

// The next sixteen words, in the place of the last, for a copy would cost more than the words do. The word of each place comes
// from those 2, 7, 15 and 16 places before it, around the end.
pub(crate) fn next_words(w: &mut [u32; 16])
    ensures { w.new ≡ next_window w.old }
{
    for i in 0..16 {
        w[i] = next_word(w[(i + 14) % 16], w[(i + 9) % 16], w[(i + 1) % 16], w[i]);
    }
}
