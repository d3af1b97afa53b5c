// A seat's thread records, as heads and accumulators' words: read, searched, and written after an effect.
#![tactic(auto)]

ghost use Rattle.std.specs.Prelude.{◌≡◌, ℕ, ◌-◌, ◌<◌, ◌%◌, length};
ghost use Rattle.threads.specs.Heads.{packed, fields_of, head_of, ready_place, place_in, wait_place, readied, thread_in};
ghost use Rattle.threads.specs.Row.{found_by, shifted, woken, sifted, row, put_at, taken_at, woken_at};

use lent::put;
use rules::Thread;
use value::{Value, coding};

// A record of a row, by its place: 1 is ready.
pub trait Placed {
    ghost place: { Self → ℕ };

    fn place(&self) -> u16
        ensures { result ≡ place self.now };
}

impl Placed for u64 {
    ghost place = { place_in };

    fn place(&self) -> u16 {
        low16(*self)
    }
}

// The low sixteen bits: a cast that loses bits, which no From of the library does.
pub fn low16(x: u64) -> u16
    ensures { result ≡ x % 65536 }
{
    (x % 65536) as u16
}

#[tactic(auto, unfolding(crate::specs::Heads::packed))]
fn pack(place: u16, position: u16, frame: u16, tag: u16) -> u64
    ensures { result ≡ packed place position frame tag }
{
    u64::from(place)
        + 65536 * (u64::from(position) + 65536 * (u64::from(frame) + 65536 * u64::from(tag)))
}

#[tactic(auto, unfolding(crate::specs::Heads::head_of, value::specs::Coding::encoded))]
fn head_of(place: u16, t: Thread) -> u64
    ensures { result ≡ head_of place t }
{
    pack(place, t.position, t.frame, coding::encode(t.acc).tag)
}

// A head's four fields, from the low end: place, position, frame and accumulator's tag.
pub fn fields(head: u64) -> [u16; 4]
    ensures { result ≡ fields_of head }
{
    [
        low16(head),
        low16(head / 0x1_0000),
        low16(head / 0x1_0000_0000),
        low16(head / 0x1_0000_0000_0000),
    ]
}

// The thread of a record.
#[tactic(auto, unfolding(crate::specs::Heads::thread_in))]
pub fn thread_in(head: u64, word: u64) -> Thread
    ensures { result ≡ thread_in head word }
{
    let [_, position, frame, tag] = fields(head);
    Thread {
        position,
        frame,
        acc: coding::decode(tag, word).unwrap_or(Value::Nil),
    }
}

#[tactic(auto, unfolding(crate::specs::Heads::wait_place))]
fn wait_place(l: usize) -> u16
    ensures { result ≡ wait_place l }
{
    if l < 65534 { (l + 2) as u16 } else { 0 }
}

// A search through the row: the place of the pick-th ready record, or how many are ready.
#[tactic(auto, using(std::proofs::lemmas::List::drop_more), unfolding(crate::specs::Row::found_by))]
pub fn find_ready<T: Placed>(row: &[T], pick: usize) -> Result<usize, usize>
    ensures { result ≡ found_by T.place pick 0 0 row.now }
{
    let mut ready: usize = 0;
    for (i, record) in row.iter().enumerate() {
        if record.place() == 1 {
            if ready == pick {
                return Ok(i);
            }
            ready += 1;
        }
    }
    Err(ready)
}

// Takes out the element at i, and puts v at the end; past the end nothing is done. An element a turn: what the library has
// for it wants a function of C that the archive does not otherwise need.
fn shift(s: &mut [u64], i: usize, v: u64)
    ensures { s.new ≡ shifted i v s.old }
{
    if i < s.len() {
        let last = s.len() - 1;
        for k in i..last {
            s[k] = s[k + 1];
        }
        s[last] = v;
    }
}

fn made_ready(head: u64) -> u64
    ensures { result ≡ readied head }
{
    head / 65536 * 65536 + 1
}

// All that wait at this place join the ready order at the back, the newest first.
fn wake(heads: &mut [u64], accs: &mut [u64], place: u16)
    requires { length accs.old ≡ length heads.old }
    ensures { row (woken place heads.old) (sifted place heads.old accs.old) ≡ row heads.new accs.new }
{
    for j in (0..heads.len()).rev() {
        let head = heads[j];
        if head.place() == place {
            let word = accs[j];
            shift(heads, j, made_ready(head));
            shift(accs, j, word);
        }
    }
}

#[tactic(auto, unfolding(crate::specs::Row::woken_at))]
fn wake_first(heads: &mut [u64], accs: &mut [u64], live: usize, place: u16)
    ensures { woken_at live place (row heads.old accs.old) ≡ row heads.new accs.new }
{
    if live <= heads.len() && live <= accs.len() {
        wake(&mut heads[..live], &mut accs[..live], place);
    }
}

// A record written: the place 1 is ready.
#[tactic(auto, unfolding(crate::specs::Row::put_at, value::specs::Coding::encoded))]
pub fn put_record(heads: &mut [u64], accs: &mut [u64], i: usize, place: u16, t: Thread)
    ensures { put_at i place t (row heads.old accs.old) ≡ row heads.new accs.new }
{
    put(heads, i, head_of(place, t));
    put(accs, i, coding::encode(t.acc).word);
}

// The thread at i leaves the row.
#[tactic(auto, unfolding(crate::specs::Row::taken_at))]
pub fn take_record(heads: &mut [u64], accs: &mut [u64], i: usize)
    ensures { taken_at i (row heads.old accs.old) ≡ row heads.new accs.new }
{
    shift(heads, i, 0);
    shift(accs, i, 0);
}

// The thread at i waits on a location: it joins that cell's list last.
pub fn wait_record(heads: &mut [u64], accs: &mut [u64], i: usize, live: u32, l: usize, t: Thread)
    ensures { put_at (live - 1) (wait_place l) t (taken_at i (row heads.old accs.old)) ≡ row heads.new accs.new }
{
    take_record(heads, accs, i);
    let last = (live as usize).saturating_sub(1);
    put_record(heads, accs, last, wait_place(l), t);
}

// The thread at i goes on, and all that wait on a location are woken.
pub fn wake_record(heads: &mut [u64], accs: &mut [u64], i: usize, live: u32, l: usize, t: Thread)
    ensures { woken_at live (wait_place l) (put_at i ready_place t (row heads.old accs.old)) ≡ row heads.new accs.new }
{
    put_record(heads, accs, i, 1, t);
    wake_first(heads, accs, live as usize, wait_place(l));
}

// The thread at i goes on, with a new one at the back.
pub fn spawn_record(
    heads: &mut [u64],
    accs: &mut [u64],
    i: usize,
    live: u32,
    new: Thread,
    t: Thread,
)
    ensures { put_at live ready_place new (put_at i ready_place t (row heads.old accs.old)) ≡ row heads.new accs.new }
{
    put_record(heads, accs, i, 1, t);
    put_record(heads, accs, live as usize, 1, new);
}
