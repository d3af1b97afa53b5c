// "its value has the kind wanted": a value taken for one kind, any other kind being refused.
ghost use Rattle.std.specs.Prelude.{◌≡◌};
ghost use Rattle.value.specs.Wanted.{as_integer, as_float, as_boolean, as_location};

use crate::Value;
use crate::refusals::Refusal;

impl TryFrom<Value> for i64 {
    type Error = Refusal;

    ghost try_from_gives = { λ v r. r ≡ as_integer v };

    #[tactic(auto, unfolding(crate::specs::Wanted::as_integer))]
    fn try_from(v: Value) -> Result<i64, Refusal> {
        let Value::Integer(z) = v else {
            return Err(Refusal::WrongKind);
        };
        Ok(z)
    }
}

impl TryFrom<Value> for f64 {
    type Error = Refusal;

    ghost try_from_gives = { λ v r. r ≡ as_float v };

    #[tactic(auto, unfolding(crate::specs::Wanted::as_float))]
    fn try_from(v: Value) -> Result<f64, Refusal> {
        let Value::Float(x) = v else {
            return Err(Refusal::WrongKind);
        };
        Ok(x)
    }
}

impl TryFrom<Value> for bool {
    type Error = Refusal;

    ghost try_from_gives = { λ v r. r ≡ as_boolean v };

    #[tactic(auto, unfolding(crate::specs::Wanted::as_boolean))]
    fn try_from(v: Value) -> Result<bool, Refusal> {
        let Value::Boolean(b) = v else {
            return Err(Refusal::WrongKind);
        };
        Ok(b)
    }
}

// A location, which is the one kind of value that a u16 stands for.
impl TryFrom<Value> for u16 {
    type Error = Refusal;

    ghost try_from_gives = { λ v r. r ≡ as_location v };

    #[tactic(auto, unfolding(crate::specs::Wanted::as_location))]
    fn try_from(v: Value) -> Result<u16, Refusal> {
        let Value::Location(l) = v else {
            return Err(Refusal::WrongKind);
        };
        Ok(l)
    }
}
