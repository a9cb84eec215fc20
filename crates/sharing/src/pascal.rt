ghost use Rattle.std.specs.Prelude.{◌≡◌, ℕ, ◌≤◌, [], slice_index, slice_index_or};
ghost use Rattle.sharing.specs.Choose.{choose};
ghost use Rattle.sharing.specs.Answers.{chosen_answer};

use crate::refusal::Refusal;

// Pascal's triangle: row a, column b has C(a, b).
const TRIANGLE: [[u8; 9]; 9] = [
    [1, 0, 0, 0, 0, 0, 0, 0, 0],
    [1, 1, 0, 0, 0, 0, 0, 0, 0],
    [1, 2, 1, 0, 0, 0, 0, 0, 0],
    [1, 3, 3, 1, 0, 0, 0, 0, 0],
    [1, 4, 6, 4, 1, 0, 0, 0, 0],
    [1, 5, 10, 10, 5, 1, 0, 0, 0],
    [1, 6, 15, 20, 15, 6, 1, 0, 0],
    [1, 7, 21, 35, 35, 21, 7, 1, 0],
    [1, 8, 28, 56, 70, 56, 28, 8, 1],
];

/// The number of ways to choose `b` of `a` things, for at most 8 things.
#[tactic(auto, using(crate::proofs::Binomials::choose_past))]
pub fn binomial(a: u8, b: u8) -> Result<u8, Refusal>
    ensures { result ≡ chosen_answer a b }
{
    if a > 8 {
        return Err(Refusal::Parameters);
    }
    if b > 8 {
        return Ok(0);
    }
    Ok(choose_of(a, b))
}

#[tactic(auto, using(crate::proofs::Binomials::table_is), unfolding(crate::specs::Choose::choose, crate::proofs::Finite::all_below, crate::proofs::Binomials::triangle))]
pub(crate) fn choose_of(a: u8, b: u8) -> u8
    requires { (a ≤ 8) × (b ≤ 8) }
    ensures { result ≡ choose a b }
{
    entry(&TRIANGLE, usize::from(a), usize::from(b))
}

// The table is an argument, so that its rule is one fact about all of it.
fn entry(rows: &[[u8; 9]; 9], a: usize, b: usize) -> u8
    requires table { (x y : ℕ) → x ≤ 8 → y ≤ 8 → slice_index (slice_index_or rows.now x []) y ≡ choose x y }
    requires row { a ≤ 8 }
    requires column { b ≤ 8 }
    ensures { result ≡ choose a b }
{
    rows[a][b]
}
