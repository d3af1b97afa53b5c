// What a cell or an accumulator holds, the tag and the word that stand for it, and the kind that an instruction wants.
#![tactic(auto)]

pub mod coding;
pub mod refusals;
pub mod wanted;
pub mod words;

#[derive(Clone, Copy, Debug, PartialEq)]
pub enum Value {
    Integer(i64),
    Float(f64),
    Boolean(bool),
    Nil,
    Location(u16),
}
