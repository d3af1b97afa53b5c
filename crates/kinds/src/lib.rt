// What each kind byte of an image is: the record or instruction, the length of its body, and what its body means.
#![tactic(auto)]

pub mod bytes;

ghost use Rattle.std.specs.Prelude.{◌≡◌, ℕ, Option, is_some};
ghost use Rattle.kinds.specs.Flows.{flow_of};
ghost use Rattle.kinds.specs.declared.Instruction.TheVariants.{Binary, Switch};
ghost use Rattle.kinds.specs.Bytes.{byte_in, pair_in};
ghost use Rattle.kinds.specs.Table.{Kind, instruction_kind, record_kind, float_means, input_means};

use bytes::{byte_at, pair_of, word_of};
use numbers::Operation;
use value::{Value, coding, words};

// One instruction with its operands: slots s and t, numbers k and n, positions a and b.
#[derive(Clone, Copy, Debug, PartialEq)]
pub enum Instruction {
    End,
    Int(i64),
    Float(f64),
    Bool(bool),
    Nil,
    Touch { s: u8 },
    Load { s: u8 },
    Store { s: u8 },
    Ialloc { s: u8 },
    Malloc { s: u8 },
    Ifetch { s: u8 },
    Istore { s: u8, t: u8 },
    Mfetch { s: u8 },
    Mstore { s: u8, t: u8 },
    Frame { n: u8 },
    Own,
    Binary { op: Operation, s: u8, t: u8 },
    Offset { s: u8, t: u8 },
    Switch { s: u8, a: u16, b: u16 },
    Spawn { a: u16 },
    Apply { a: u16, s: u8 },
    Get { s: u8, k: u8 },
    Put { s: u8, k: u8 },
}

// A record before the code: 80 with its slots, an input, or 85.
#[derive(Clone, Copy, Debug, PartialEq)]
pub enum Record {
    Slots(u8),
    Input(Value),
    Code,
}

// How many bytes follow the kind byte of an instruction; none where the kind is unknown.
#[tactic(auto, unfolding(crate::specs::Table::instruction_kind, crate::specs::Table::instructions))]
pub fn instruction_size(kind: u8) -> usize
    ensures { result ≡ (instruction_kind kind).size }
{
    match kind {
        0x00 | 0x04 | 0x0F => 0,
        0x01..=0x02 => 8,
        0x0B | 0x0D => 2,
        0x03..=0x0E => 1,
        0x17 => 5,
        0x19 => 3,
        0x10..=0x1B => 2,
        _ => 0,
    }
}

#[tactic(auto, unfolding(crate::specs::Table::float_means, value::specs::Coding::float_in))]
fn float_meant(word: u64) -> Option<Instruction>
    ensures { result ≡ float_means word }
{
    words::to_float(word).map(Instruction::Float)
}

fn binary(op: Operation, s: u8, t: u8) -> Instruction
    ensures { result ≡ Binary op s t }
{
    Instruction::Binary { op, s, t }
}

fn switch_in(body: &[u8]) -> Instruction
    ensures { result ≡ Switch (byte_in body.now 0) (pair_in body.now 1) (pair_in body.now 3) }
{
    Instruction::Switch {
        s: byte_at(body, 0),
        a: pair_of(byte_at(body, 1), byte_at(body, 2)),
        b: pair_of(byte_at(body, 3), byte_at(body, 4)),
    }
}

// What an instruction's body means; nothing, where the kind is unknown or a rule is broken.
#[tactic(auto, unfolding(crate::specs::Table::instruction_kind, crate::specs::Table::instructions, crate::specs::Table::truth_means, crate::specs::Table::frame_means, crate::specs::Table::switch_means))]
pub fn instruction_meant(kind: u8, body: &[u8]) -> Option<Instruction>
    ensures { result ≡ (instruction_kind kind).means body.now }
{
    let s = byte_at(body, 0);
    let t = byte_at(body, 1);
    let meant = match kind {
        0x00 => Instruction::End,
        0x01 => Instruction::Int(word_of(body).cast_signed()),
        0x02 => return float_meant(word_of(body)),
        0x03 => return (s <= 1).then_some(Instruction::Bool(s == 1)),
        0x04 => Instruction::Nil,
        0x05 => Instruction::Touch { s },
        0x06 => Instruction::Load { s },
        0x07 => Instruction::Store { s },
        0x08 => Instruction::Ialloc { s },
        0x09 => Instruction::Malloc { s },
        0x0A => Instruction::Ifetch { s },
        0x0B => Instruction::Istore { s, t },
        0x0C => Instruction::Mfetch { s },
        0x0D => Instruction::Mstore { s, t },
        0x0E => return (1 <= s).then_some(Instruction::Frame { n: s }),
        0x0F => Instruction::Own,
        0x10 => binary(Operation::Add, s, t),
        0x11 => binary(Operation::Sub, s, t),
        0x12 => binary(Operation::Mul, s, t),
        0x13 => binary(Operation::Div, s, t),
        0x14 => binary(Operation::Less, s, t),
        0x15 => binary(Operation::Equal, s, t),
        0x16 => Instruction::Offset { s, t },
        0x17 => switch_in(body),
        0x18 => Instruction::Spawn { a: pair_of(s, t) },
        0x19 => Instruction::Apply {
            a: pair_of(s, t),
            s: byte_at(body, 2),
        },
        0x1A => Instruction::Get { s, k: t },
        0x1B => Instruction::Put { s, k: t },
        _ => return None,
    };
    Some(meant)
}

// Whether an instruction's body means anything. Only a FLOAT is made for it: is_some of the meaning makes every instruction, and
// a walk is slower.
#[tactic(auto, unfolding(crate::specs::Table::instruction_kind, crate::specs::Table::instructions))]
pub fn is_meant(kind: u8, body: &[u8]) -> bool
    ensures { result ≡ is_some ((instruction_kind kind).means body.now) }
{
    match kind {
        0x02 => instruction_meant(kind, body).is_some(),
        0x03 => byte_at(body, 0) <= 1,
        0x0E => 1 <= byte_at(body, 0),
        0x00..=0x1B => true,
        _ => false,
    }
}

// How many bytes follow the kind byte of a record before the code.
#[tactic(auto, unfolding(crate::specs::Table::record_kind, crate::specs::Table::records))]
pub fn record_size(kind: u8) -> usize
    ensures { result ≡ (record_kind kind).size }
{
    match kind {
        0x80 | 0x83 => 1,
        0x81..=0x82 => 8,
        _ => 0,
    }
}

// A value as a record; the name is that of the definition that the table cites.
fn input_meant(v: Option<Value>) -> Option<Record>
    ensures { result ≡ input_means v }
{
    v.map(Record::Input)
}

// What the body of a record before the code means; nothing, where the kind is unknown or a rule is broken.
#[tactic(auto, unfolding(crate::specs::Table::record_kind, crate::specs::Table::records, crate::specs::Table::slots_means, value::specs::Coding::decoded, value::specs::Coding::only))]
pub fn record_meant(kind: u8, body: &[u8]) -> Option<Record>
    ensures { result ≡ (record_kind kind).means body.now }
{
    match kind {
        0x80 => {
            let r = byte_at(body, 0);
            (1 <= r).then_some(Record::Slots(r))
        }
        0x81 => input_meant(coding::decode(1, word_of(body))),
        0x82 => input_meant(coding::decode(2, word_of(body))),
        0x83 => input_meant(coding::decode(3, u64::from(byte_at(body, 0)))),
        0x84 => Some(Record::Input(Value::Nil)),
        0x85 => Some(Record::Code),
        _ => None,
    }
}

// What a part of an image is a row of, as one byte of kind and a body: an instruction of the code, or a record before it.
pub trait Tabled: Sized {
    // The table of the part's kinds.
    ghost table: { ℕ → Kind (Option Self) };

    fn size(kind: u8) -> usize
        ensures { result ≡ (table kind).size };

    fn meant(kind: u8, body: &[u8]) -> Option<Self>
        ensures { result ≡ (table kind).means body.now };
}

impl Tabled for Instruction {
    ghost table = { instruction_kind };

    fn size(kind: u8) -> usize {
        instruction_size(kind)
    }

    fn meant(kind: u8, body: &[u8]) -> Option<Instruction> {
        instruction_meant(kind, body)
    }
}

impl Tabled for Record {
    ghost table = { record_kind };

    fn size(kind: u8) -> usize {
        record_size(kind)
    }

    fn meant(kind: u8, body: &[u8]) -> Option<Record> {
        record_meant(kind, body)
    }
}

// Where a thread may go from an instruction: on to the next, nowhere, to a or b, or on with a new thread at a.
#[derive(Clone, Copy, Debug, PartialEq, Eq)]
pub enum Flow {
    On,
    Stops,
    Jumps(u16, u16),
    Forks(u16),
}

#[tactic(auto, unfolding(crate::specs::Flows::flow_of))]
pub fn flow_of(i: Instruction) -> Flow
    ensures { result ≡ flow_of i }
{
    match i {
        Instruction::End => Flow::Stops,
        Instruction::Switch { a, b, .. } => Flow::Jumps(a, b),
        Instruction::Spawn { a } | Instruction::Apply { a, .. } => Flow::Forks(a),
        _ => Flow::On,
    }
}
