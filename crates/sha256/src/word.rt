ghost use Rattle.std.specs.Prelude.{◌≡◌, ◌<◌};
ghost use Rattle.sha256.specs.Words.{big_sigma, small_sigma, choice as chosen, majority as voted};

// Σ0 is `big_sigma::<2, 13, 22>`, and Σ1 is `big_sigma::<6, 11, 25>`.
pub(crate) fn big_sigma<const A: u32, const B: u32, const C: u32>(x: u32) -> u32
    requires { (0 < A) × (A < 32) × (0 < B) × (B < 32) × (0 < C) × (C < 32) }
    ensures { result ≡ big_sigma A B C x }
{
    x.rotate_right(A) ^ x.rotate_right(B) ^ x.rotate_right(C)
}

// σ0 is `small_sigma::<7, 18, 3>`, and σ1 is `small_sigma::<17, 19, 10>`.
pub(crate) fn small_sigma<const A: u32, const B: u32, const C: u32>(x: u32) -> u32
    requires { (0 < A) × (A < 32) × (0 < B) × (B < 32) × (C < 32) }
    ensures { result ≡ small_sigma A B C x }
{
    x.rotate_right(A) ^ x.rotate_right(B) ^ (x >> C)
}

// One operation fewer than the rule has.
#[tactic(auto, using(crate::proofs::Bits::choice_is))]
pub(crate) fn choice(x: u32, y: u32, z: u32) -> u32
    ensures { result ≡ chosen x y z }
{
    z ^ (x & (y ^ z))
}

// In the next round `y ^ z` is this round's `x ^ y`, so that it is worked out once.
#[tactic(auto, using(crate::proofs::Bits::majority_is))]
pub(crate) fn majority(x: u32, y: u32, z: u32) -> u32
    ensures { result ≡ voted x y z }
{
    y ^ ((x ^ y) & (y ^ z))
}
