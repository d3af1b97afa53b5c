// Exact arithmetic on 64-bit integers, refused where the answer is out of range.
ghost use Rattle.std.specs.Prelude.{◌≡◌, ◌+ℤ◌, ◌-ℤ◌, ◌*ℤ◌};
ghost use Rattle.numbers.specs.Integers.{exactly, quotient, moved};

use value::refusals::Refusal;

#[tactic(auto, using(crate::proofs::Exact::exactly_if))]
pub fn add(a: i64, b: i64) -> Result<i64, Refusal>
    ensures { result ≡ exactly (a +ℤ b) }
{
    a.checked_add(b).ok_or(Refusal::OutOfRange)
}

#[tactic(auto, using(crate::proofs::Exact::exactly_if))]
pub fn sub(a: i64, b: i64) -> Result<i64, Refusal>
    ensures { result ≡ exactly (a -ℤ b) }
{
    a.checked_sub(b).ok_or(Refusal::OutOfRange)
}

#[tactic(auto, using(crate::proofs::Exact::exactly_if))]
pub fn mul(a: i64, b: i64) -> Result<i64, Refusal>
    ensures { result ≡ exactly (a *ℤ b) }
{
    a.checked_mul(b).ok_or(Refusal::OutOfRange)
}

// Only the least number by -1 leaves the range.
#[tactic(auto, using(crate::proofs::Exact::quotient_if), unfolding(crate::specs::Integers::quotient))]
pub fn div(a: i64, b: i64) -> Result<i64, Refusal>
    ensures { result ≡ quotient a b }
{
    if b == 0 {
        return Err(Refusal::ZeroDivisor);
    }
    a.checked_div(b).ok_or(Refusal::OutOfRange)
}

// OFFSET: a location moved by an integer.
#[tactic(auto, unfolding(crate::specs::Integers::moved))]
pub fn offset(l: u16, z: i64) -> Result<u16, Refusal>
    ensures { result ≡ moved l z }
{
    let at = z.checked_add(i64::from(l)).ok_or(Refusal::NoSuchCell)?;
    u16::try_from(at).ok().ok_or(Refusal::NoSuchCell)
}
