// ADD, SUB, MUL, DIV, LESS and EQUAL on two values.
#![tactic(auto)]

pub mod floats;
pub mod integers;

ghost use Rattle.std.specs.Prelude.{◌≡◌};
ghost use Rattle.numbers.specs.Operations.{takes_first, on_integers, on_floats, on_booleans, operated};

use value::Value;
use value::refusals::Refusal;

// Kinds 10 to 15 of document 01, in its order.
#[derive(Clone, Copy, Debug, PartialEq, Eq)]
pub enum Operation {
    Add,
    Sub,
    Mul,
    Div,
    Less,
    Equal,
}

// Slot s alone: whether the operation takes this value as its first, tested before slot t is read.
#[tactic(auto, unfolding(crate::specs::Operations::takes_booleans, crate::specs::Operations::takes_first))]
pub fn takes_first(op: Operation, v: Value) -> bool
    ensures { result ≡ takes_first op v }
{
    match v {
        Value::Integer(_) | Value::Float(_) => true,
        Value::Boolean(_) => op == Operation::Equal,
        Value::Nil | Value::Location(_) => false,
    }
}

#[tactic(auto, using(crate::proofs::Exact::bits_equal), unfolding(crate::specs::Operations::on_integers, crate::specs::Operations::whole))]
fn on_integers(op: Operation, x: i64, y: i64) -> Result<Value, Refusal>
    ensures { result ≡ on_integers op x y }
{
    let answer = match op {
        Operation::Add => integers::add(x, y)?,
        Operation::Sub => integers::sub(x, y)?,
        Operation::Mul => integers::mul(x, y)?,
        Operation::Div => integers::div(x, y)?,
        Operation::Less => return Ok(Value::Boolean(x < y)),
        Operation::Equal => return Ok(Value::Boolean(x == y)),
    };
    Ok(Value::Integer(answer))
}

#[tactic(auto, unfolding(crate::specs::Operations::on_floats, crate::specs::Operations::real))]
fn on_floats(op: Operation, x: f64, y: f64) -> Result<Value, Refusal>
    ensures { result ≡ on_floats op x y }
{
    let answer = match op {
        Operation::Add => floats::add(x, y)?,
        Operation::Sub => floats::sub(x, y)?,
        Operation::Mul => floats::mul(x, y)?,
        Operation::Div => floats::div(x, y)?,
        Operation::Less => return Ok(Value::Boolean(x < y)),
        Operation::Equal => return Ok(Value::Boolean(x == y)),
    };
    Ok(Value::Float(answer))
}

#[tactic(auto, unfolding(crate::specs::Operations::on_booleans, crate::specs::Operations::takes_booleans))]
fn on_booleans(op: Operation, x: bool, y: bool) -> Result<Value, Refusal>
    ensures { result ≡ on_booleans op x y }
{
    if op == Operation::Equal {
        Ok(Value::Boolean(x == y))
    } else {
        Err(Refusal::WrongKind)
    }
}

// Both slots read: the second has the first one's kind.
#[tactic(auto, unfolding(crate::specs::Operations::operated, crate::specs::Operations::with_boolean, crate::specs::Operations::with_float, crate::specs::Operations::with_integer))]
pub fn operate(op: Operation, a: Value, b: Value) -> Result<Value, Refusal>
    ensures { result ≡ operated op a b }
{
    match a {
        Value::Integer(x) => on_integers(op, x, i64::try_from(b)?),
        Value::Float(x) => on_floats(op, x, f64::try_from(b)?),
        Value::Boolean(x) => on_booleans(op, x, bool::try_from(b)?),
        Value::Nil | Value::Location(_) => Err(Refusal::WrongKind),
    }
}
