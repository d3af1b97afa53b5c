// The tests of a slot and of the cell pointed to, in the paper's order.
#![tactic(auto)]

ghost use Rattle.std.specs.Prelude.{◌≡◌, ◌+◌};
ghost use Rattle.cells.specs.Lent.{look_in};
ghost use Rattle.rules.specs.Tests.{value_in, cell_in};
ghost use Rattle.slots.specs.Standing.{slot};
ghost use Rattle.slots.specs.Handed.{Sized, Judged};

use cells::Cells;
use numbers::Operation;
use rules::{Kind, Slot, Thread};
use value::Value;
use value::refusals::Refusal;

// Where a thread stands: its seat's used cells, the position behind its instruction, and the thread.
#[derive(Clone, Copy)]
pub struct Standing<'a> {
    pub cells: Cells<'a>,
    pub after: u16,
    pub thread: Thread,
}

impl<'a> Standing<'a> {
    // The cell k places past a location.
    pub fn cell_at(self, l: u16, k: u8) -> Slot
        ensures { result ≡ look_in self.entry.cells (l + k) }
    {
        self.cells.look(usize::from(l) + usize::from(k))
    }

    // What slot s of the thread's frame holds.
    pub fn slot_value(self, s: u8) -> Result<Value, Refusal>
        ensures { result ≡ value_in (slot self.entry s) }
    {
        value_in(self.cell_at(self.thread.frame, s))
    }
}

#[tactic(auto, unfolding(rules::specs::Tests::value_in))]
fn value_in(s: Slot) -> Result<Value, Refusal>
    ensures { result ≡ value_in s }
{
    match s {
        Slot::Missing => Err(Refusal::NoSuchCell),
        Slot::Empty(Kind::Mcell) | Slot::Full(Kind::Mcell, _) => Err(Refusal::WrongCell),
        Slot::Empty(Kind::Icell) => Err(Refusal::SlotEmpty),
        Slot::Full(Kind::Icell, v) => Ok(v),
    }
}

// A size to allocate; what the slot is refused by is handed on.
#[tactic(auto, unfolding(crate::specs::Handed::Sized, crate::specs::Handed::Told, rules::specs::Tests::size_of))]
pub fn size_of<E: From<Refusal>>(size: Result<i64, E>) -> Result<u16, E>
    ensures { Sized E.from_gives size result }
{
    let z = size?;
    if z < 1 {
        return Err(E::from(Refusal::BadSize));
    }
    if z <= 1024 {
        return Ok(z as u16);
    }
    Err(E::from(Refusal::BadSize))
}

// What a cell of the kind wanted holds, if it is full.
#[tactic(auto, unfolding(rules::specs::Tests::cell_in, rules::specs::Tests::of_kind))]
pub fn cell_in(k: Kind, s: Slot) -> Result<Option<Value>, Refusal>
    ensures { result ≡ cell_in k s }
{
    match s {
        Slot::Missing => Err(Refusal::NoSuchCell),
        Slot::Empty(j) if j == k => Ok(None),
        Slot::Full(j, v) if j == k => Ok(Some(v)),
        Slot::Empty(_) | Slot::Full(_, _) => Err(Refusal::WrongCell),
    }
}

// The first slot is judged whole before what the second holds counts; what either is refused by is handed on.
#[tactic(auto, unfolding(crate::specs::Handed::Judged, crate::specs::Handed::Told, rules::specs::Decide::with_first, rules::specs::Decide::with_second))]
pub fn with_first<E: From<Refusal> + Drop>(
    op: Operation,
    s: Result<Value, E>,
    t: Result<Value, E>,
) -> Result<Value, E>
    ensures { Judged E.from_gives op s t result }
{
    let a = s?;
    if !numbers::takes_first(op, a) {
        return Err(E::from(Refusal::WrongKind));
    }
    Ok(numbers::operate(op, a, t?)?)
}
