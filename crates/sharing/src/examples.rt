ghost use Rattle.std.specs.Prelude.{◌≡◌, true, Ok};
ghost use Rattle.sharing.specs.Examples.{Examples};

use crate::refusal::Refusal;
use crate::scheme::Scheme;

/// Whether 5 units with threshold 3 have 10 shares. The contract has all of the worked examples.
#[tactic(auto, using(crate::proofs::Worked::examples))]
pub fn examples_stand() -> Result<bool, Refusal>
    ensures value { result ≡ Ok true }
    ensures stand { Examples }
{
    let scheme = Scheme::new(5, 3)?;
    Ok(scheme.shares() == 10)
}
