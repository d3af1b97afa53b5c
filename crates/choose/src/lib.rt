// What an instruction does, decided over shared slices: one function a family, the tests in the paper's order. Nothing is written.
#![tactic(auto)]

ghost use Rattle.std.specs.Prelude.{◌≡◌, Ok};
ghost use Rattle.kinds.specs.declared.Instruction.TheVariants as I;
ghost use Rattle.cells.specs.Lent.{fresh_on};
ghost use Rattle.value.specs.declared.Value.TheVariants.{Nil, Location};
ghost use Rattle.rules.specs.declared.Effect.TheVariants.{Goes, Waits, Fills, Makes, Spawns};
ghost use Rattle.rules.specs.Decide.{thread, told, if_full, if_empty, gives, again, fetches, stores, allocates};
ghost use Rattle.slots.specs.Standing.{seen, decision};

use kinds::Instruction;
use numbers::Operation;
use rules::{Effect, Kind, Thread};
use slots::{Standing, cell_in, size_of, with_first};
use value::Value;
use value::refusals::Refusal;

// The thread on its way, at a position with an accumulator.
fn moved_to(position: u16, th: Thread, acc: Value) -> Thread
    ensures { result ≡ thread position th.frame acc }
{
    Thread {
        position,
        frame: th.frame,
        acc,
    }
}

// Goes on to the next instruction with this accumulator.
fn with_acc(at: Standing, acc: Value) -> Effect
    ensures { result ≡ Goes (thread at.entry.after at.entry.thread.frame acc) }
{
    Effect::Goes(moved_to(at.after, at.thread, acc))
}

#[tactic(auto, unfolding(rules::specs::Decide::decide))]
fn load(at: Standing, s: u8) -> Result<Effect, Refusal>
    ensures { told result ≡ decision at.entry (I.Load s) }
{
    Ok(with_acc(at, at.slot_value(s)?))
}

// Full or not, the accumulator becomes nil.
#[tactic(auto, unfolding(rules::specs::Decide::decide, rules::specs::Decide::if_full))]
fn touch(at: Standing, s: u8) -> Result<Effect, Refusal>
    ensures { told result ≡ decision at.entry (I.Touch s) }
{
    let frame = at.thread.frame;
    let l = usize::from(frame) + usize::from(s);
    match cell_in(Kind::Icell, at.cell_at(frame, s))? {
        Some(_) => Ok(with_acc(at, Value::Nil)),
        None => Ok(Effect::Waits(moved_to(at.after, at.thread, Value::Nil), l)),
    }
}

// STORE, PUT, ISTORE and MSTORE, by what the cell at l holds.
#[tactic(auto, unfolding(rules::specs::Decide::if_empty))]
fn store_into(
    kind: Kind,
    l: usize,
    v: Value,
    at: Standing,
    held: Option<Value>,
) -> Result<Effect, Refusal>
    ensures { told result ≡ if_empty (Fills (thread at.entry.after at.entry.thread.frame at.entry.thread.acc) kind l v) (Ok held) }
{
    match held {
        Some(_) => Err(Refusal::CellFull),
        None => Ok(Effect::Fills(moved_to(at.after, at.thread, at.thread.acc), kind, l, v)),
    }
}

#[tactic(auto, unfolding(rules::specs::Decide::decide, rules::specs::Decide::if_empty))]
fn store(at: Standing, s: u8) -> Result<Effect, Refusal>
    ensures { told result ≡ decision at.entry (I.Store s) }
{
    let frame = at.thread.frame;
    let held = cell_in(Kind::Icell, at.cell_at(frame, s))?;
    store_into(
        Kind::Icell,
        usize::from(frame) + usize::from(s),
        at.thread.acc,
        at,
        held,
    )
}

#[tactic(auto, unfolding(rules::specs::Decide::decide, rules::specs::Decide::if_empty, rules::specs::Tests::location_of))]
fn put(at: Standing, s: u8, k: u8) -> Result<Effect, Refusal>
    ensures { told result ≡ decision at.entry (I.Put s k) }
{
    let l = u16::try_from(at.slot_value(s)?)?;
    let held = cell_in(Kind::Icell, at.cell_at(l, k))?;
    store_into(
        Kind::Icell,
        usize::from(l) + usize::from(k),
        at.thread.acc,
        at,
        held,
    )
}

// ISTORE and MSTORE. In line in its two arms, and `fetch` in its three: one call out of line, and every arm's effect goes through memory.
#[tactic(auto, unfolding(rules::specs::Decide::stores, rules::specs::Decide::if_empty, rules::specs::Tests::location_of))]
#[inline(always)]
fn store_at(at: Standing, kind: Kind, s: u8, t: u8) -> Result<Effect, Refusal>
    ensures { told result ≡ stores at.entry.after (seen at.entry) at.entry.thread kind s t }
{
    let l = u16::try_from(at.slot_value(s)?)?;
    let v = at.slot_value(t)?;
    let held = cell_in(kind, at.cell_at(l, 0))?;
    store_into(kind, usize::from(l), v, at, held)
}

// IFETCH, GET and MFETCH, by what the cell at l holds.
#[tactic(auto, unfolding(rules::specs::Decide::gives, rules::specs::Decide::if_full))]
fn fetch_from(kind: Kind, l: usize, at: Standing, held: Option<Value>) -> Effect
    ensures { result ≡ if_full (gives at.entry.after (seen at.entry) at.entry.thread kind l) (Waits (again at.entry.after (seen at.entry) at.entry.thread) l) (Ok held) }
{
    match held {
        Some(v) => match kind {
            Kind::Icell => with_acc(at, v),
            Kind::Mcell => Effect::Empties(moved_to(at.after, at.thread, v), l),
        },
        None => Effect::Waits(moved_to(at.thread.position, at.thread, Value::Nil), l),
    }
}

#[tactic(auto, unfolding(rules::specs::Decide::fetches, rules::specs::Decide::if_full, rules::specs::Tests::location_of))]
#[inline(always)]
fn fetch(at: Standing, kind: Kind, s: u8, k: u8) -> Result<Effect, Refusal>
    ensures { told result ≡ fetches at.entry.after (seen at.entry) at.entry.thread kind s k }
{
    let l = u16::try_from(at.slot_value(s)?)?;
    let held = cell_in(kind, at.cell_at(l, k))?;
    Ok(fetch_from(kind, usize::from(l) + usize::from(k), at, held))
}

fn make(at: Standing, kind: Kind, n: u16) -> Effect
    ensures { result ≡ Makes (thread at.entry.after at.entry.thread.frame (Location (fresh_on at.entry.cells.used at.entry.cells.start))) kind n }
{
    let l = cells::fresh(at.cells.used, at.cells.start);
    Effect::Makes(moved_to(at.after, at.thread, Value::Location(l)), kind, n)
}

#[tactic(auto, using(slots::proofs::Handed::sized_own), unfolding(rules::specs::Decide::allocates, rules::specs::Decide::makes, rules::specs::Tests::integer_of, rules::specs::Tests::size_of))]
fn allocate(at: Standing, kind: Kind, s: u8) -> Result<Effect, Refusal>
    ensures { told result ≡ allocates at.entry.after (seen at.entry) at.entry.thread kind s }
{
    let size = size_of(at.slot_value(s).and_then(i64::try_from))?;
    Ok(make(at, kind, size))
}

fn spawn(at: Standing, a: u16, frame: u16) -> Effect
    ensures { result ≡ Spawns (thread at.entry.after at.entry.thread.frame at.entry.thread.acc) (thread a frame Nil) }
{
    let new = Thread {
        position: a,
        frame,
        acc: Value::Nil,
    };
    Effect::Spawns(moved_to(at.after, at.thread, at.thread.acc), new)
}

#[tactic(auto, unfolding(rules::specs::Decide::decide, rules::specs::Tests::location_of))]
fn apply(at: Standing, a: u16, s: u8) -> Result<Effect, Refusal>
    ensures { told result ≡ decision at.entry (I.Apply a s) }
{
    Ok(spawn(at, a, u16::try_from(at.slot_value(s)?)?))
}

#[tactic(auto, using(slots::proofs::Handed::judged_own), unfolding(rules::specs::Decide::decide))]
fn binary(at: Standing, op: Operation, s: u8, t: u8) -> Result<Effect, Refusal>
    ensures { told result ≡ decision at.entry (I.Binary op s t) }
{
    let first = at.slot_value(s);
    Ok(with_acc(at, with_first(op, first, at.slot_value(t))?))
}

#[tactic(auto, unfolding(rules::specs::Decide::decide, rules::specs::Tests::location_of, rules::specs::Tests::integer_of))]
fn offset(at: Standing, s: u8, t: u8) -> Result<Effect, Refusal>
    ensures { told result ≡ decision at.entry (I.Offset s t) }
{
    let l = u16::try_from(at.slot_value(s)?)?;
    let z = i64::try_from(at.slot_value(t)?)?;
    let moved = numbers::integers::offset(l, z)?;
    Ok(with_acc(at, Value::Location(moved)))
}

#[tactic(auto, unfolding(rules::specs::Decide::decide, rules::specs::Tests::truth_of))]
fn switch(at: Standing, s: u8, a: u16, b: u16) -> Result<Effect, Refusal>
    ensures { told result ≡ decision at.entry (I.Switch s a b) }
{
    let holds = bool::try_from(at.slot_value(s)?)?;
    let target = if holds { a } else { b };
    Ok(Effect::Goes(moved_to(target, at.thread, at.thread.acc)))
}

// One arm an instruction; a table of closures is no plainer, and 01 is read arm by arm.
#[tactic(auto, unfolding(rules::specs::Decide::decide, rules::specs::Decide::makes))]
fn decided(at: Standing, i: Instruction) -> Result<Effect, Refusal>
    ensures { told result ≡ decision at.entry i }
{
    match i {
        Instruction::End => Ok(Effect::Ends),
        Instruction::Int(z) => Ok(with_acc(at, Value::Integer(z))),
        Instruction::Float(x) => Ok(with_acc(at, Value::Float(x))),
        Instruction::Bool(b) => Ok(with_acc(at, Value::Boolean(b))),
        Instruction::Nil => Ok(with_acc(at, Value::Nil)),
        Instruction::Touch { s } => touch(at, s),
        Instruction::Load { s } => load(at, s),
        Instruction::Store { s } => store(at, s),
        Instruction::Ialloc { s } => allocate(at, Kind::Icell, s),
        Instruction::Malloc { s } => allocate(at, Kind::Mcell, s),
        Instruction::Ifetch { s } => fetch(at, Kind::Icell, s, 0),
        Instruction::Istore { s, t } => store_at(at, Kind::Icell, s, t),
        Instruction::Mfetch { s } => fetch(at, Kind::Mcell, s, 0),
        Instruction::Mstore { s, t } => store_at(at, Kind::Mcell, s, t),
        Instruction::Frame { n } => Ok(make(at, Kind::Icell, u16::from(n))),
        Instruction::Own => Ok(with_acc(at, Value::Location(at.thread.frame))),
        Instruction::Binary { op, s, t } => binary(at, op, s, t),
        Instruction::Offset { s, t } => offset(at, s, t),
        Instruction::Switch { s, a, b } => switch(at, s, a, b),
        Instruction::Spawn { a } => Ok(spawn(at, a, at.thread.frame)),
        Instruction::Apply { a, s } => apply(at, a, s),
        Instruction::Get { s, k } => fetch(at, Kind::Icell, s, k),
        Instruction::Put { s, k } => put(at, s, k),
    }
}

// What the thread does by instruction i: a test that fails refuses.
pub fn choose(at: Standing, i: Instruction) -> Effect
    ensures { result ≡ decision at.entry i }
{
    decided(at, i).unwrap_or_else(|refusal| Effect::Refuses(u8::from(refusal)))
}
