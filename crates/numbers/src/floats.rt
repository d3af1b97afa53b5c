// Float arithmetic: one operation of the language, refused where its answer is not finite.
ghost use Rattle.std.specs.Prelude.{◌≡◌};
ghost use Rattle.std.specs.Float.{binary64};
ghost use Rattle.std.specs.Float.Ieee as Ieee;
ghost use Rattle.numbers.specs.Floats.{finitely, quotient};

use value::refusals::Refusal;

#[tactic(auto, using(laws::proofs::Floats::finite_is), unfolding(crate::specs::Floats::finitely))]
fn if_finite(x: f64) -> Result<f64, Refusal>
    ensures { result ≡ finitely x }
{
    x.is_finite().then_some(x).ok_or(Refusal::OutOfRange)
}

pub fn add(a: f64, b: f64) -> Result<f64, Refusal>
    ensures { result ≡ finitely (Ieee.add binary64 a b) }
{
    if_finite(a + b)
}

pub fn sub(a: f64, b: f64) -> Result<f64, Refusal>
    ensures { result ≡ finitely (Ieee.sub binary64 a b) }
{
    if_finite(a - b)
}

pub fn mul(a: f64, b: f64) -> Result<f64, Refusal>
    ensures { result ≡ finitely (Ieee.mul binary64 a b) }
{
    if_finite(a * b)
}

// A zero of either sign equals 0.0.
#[tactic(auto, unfolding(crate::specs::Floats::quotient))]
pub fn div(a: f64, b: f64) -> Result<f64, Refusal>
    ensures { result ≡ quotient a b }
{
    if b == 0.0 {
        return Err(Refusal::ZeroDivisor);
    }
    if_finite(a / b)
}
