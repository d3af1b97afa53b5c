// A value's tag and word, and the value that a tag and a word stand for.
ghost use Rattle.std.specs.Prelude.{◌≡◌};
ghost use Rattle.value.specs.Coding.{decoded, held_at, encoded};

use crate::{Value, words};

#[derive(Clone, Copy, Debug, PartialEq, Eq)]
pub struct Coded {
    pub tag: u16,
    pub word: u64,
}

#[tactic(auto, unfolding(crate::specs::Coding::decoded, crate::specs::Coding::only, crate::specs::Coding::float_in))]
pub fn decode(tag: u16, word: u64) -> Option<Value>
    ensures { result ≡ decoded tag word }
{
    match tag {
        1 => Some(Value::Integer(word.cast_signed())),
        2 => words::to_float(word).map(Value::Float),
        3 => (word <= 1).then_some(Value::Boolean(word == 1)),
        4 => (word == 0).then_some(Value::Nil),
        5 => u16::try_from(word).ok().map(Value::Location),
        _ => None,
    }
}

// The value that cell i of the lent slices holds.
#[tactic(auto, unfolding(crate::specs::Coding::held_at))]
pub fn held_at(tags: &[u16], words: &[u64], i: usize) -> Option<Value>
    ensures { result ≡ held_at tags.now words.now i }
{
    decode(*tags.get(i)? % 8, *words.get(i)?)
}

#[tactic(auto, unfolding(crate::specs::Coding::encoded, crate::specs::Coding::tag_of, crate::specs::Coding::word_of))]
pub fn encode(v: Value) -> Coded
    ensures { result ≡ encoded v }
{
    match v {
        Value::Integer(z) => Coded {
            tag: 1,
            word: z.cast_unsigned(),
        },
        Value::Float(x) => Coded {
            tag: 2,
            word: words::of_float(x),
        },
        Value::Boolean(b) => Coded {
            tag: 3,
            word: u64::from(b),
        },
        Value::Nil => Coded { tag: 4, word: 0 },
        Value::Location(l) => Coded {
            tag: 5,
            word: u64::from(l),
        },
    }
}
