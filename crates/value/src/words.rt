// A float as 64 bits, and back. A signed number has std's own casts.
ghost use Rattle.std.specs.Prelude.{◌≡◌};
ghost use Rattle.std.specs.Float.{binary64};
ghost use Rattle.std.specs.Float.Ieee.{to_bits};
ghost use Rattle.value.specs.Coding.{float_in};

// The bits of a NaN are left open by the language, so here they are named.
pub fn of_float(number: f64) -> u64
    ensures { result ≡ to_bits binary64 number }
{
    if number == number {
        f64::to_bits(number)
    } else {
        0x7ff8_0000_0000_0000
    }
}

// The float of these bits, if it is finite: the exponent's eleven bits, all set, are an infinity or a NaN.
#[tactic(auto, unfolding(crate::specs::Coding::float_in))]
pub fn to_float(word: u64) -> Option<f64>
    ensures { result ≡ float_in word }
{
    if word % 0x8000_0000_0000_0000 / 0x10_0000_0000_0000 == 2047 {
        return None;
    }
    Some(f64::from_bits(word))
}
