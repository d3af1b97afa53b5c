// The search through a row of thread records that are structs: a head's four fields, the row laid out from heads, and the picked ready record.
#![tactic(auto)]

ghost use Rattle.std.specs.Prelude.{◌≡◌, take};
ghost use Rattle.threads.specs.Row.{found_from};
ghost use Rattle.rows.specs.Row.{thread_of, four_of, found_in};

use lent::get;
use threads::{Placed, fields, find_ready};

// A head's four fields, from the low end.
#[derive(Clone, Copy)]
pub struct Thread {
    pub place: u16,
    pub position: u16,
    pub frame: u16,
    pub tag: u16,
}

impl From<u64> for Thread {
    ghost from_gives = { λ head t. t ≡ thread_of head };

    #[tactic(auto, unfolding(crate::specs::Row::thread_of))]
    fn from(head: u64) -> Thread {
        let [place, position, frame, tag] = fields(head);
        Thread {
            place,
            position,
            frame,
            tag,
        }
    }
}

impl Placed for Thread {
    ghost place = { λ t. t.place };

    fn place(&self) -> u16 {
        self.place
    }
}

// A search through the lent row: the place of the pick-th ready record, or how many are ready.
pub fn find_in(row: &[Thread], pick: usize) -> Result<usize, usize>
    ensures { result ≡ found_in pick 0 0 row.now }
{
    find_ready(row, pick)
}

// The same on a row that is a local: it is lent whole.
pub fn find_row(row: [Thread; 4], pick: usize) -> Result<usize, usize>
    ensures { result ≡ found_in pick 0 0 row }
{
    find_in(&row, pick)
}

// The first four heads as structs, which are a copy of them.
#[tactic(auto, unfolding(crate::specs::Row::four_of))]
fn four(heads: &[u64]) -> [Thread; 4]
    ensures { result ≡ four_of heads.now }
{
    [
        Thread::from(get(heads, 0, 0)),
        Thread::from(get(heads, 1, 0)),
        Thread::from(get(heads, 2, 0)),
        Thread::from(get(heads, 3, 0)),
    ]
}

// The search through the first four heads, by way of the structs.
#[tactic(auto, using(crate::proofs::Fours::four_answers))]
fn find_four(heads: &[u64], pick: usize) -> Result<usize, usize>
    ensures { result ≡ found_from pick 0 0 (take 4 heads.now) }
{
    find_row(four(heads), pick)
}

// The pick-th ready record of heads, four at a time.
fn find(heads: &[u64], pick: usize) -> Result<usize, usize>
    ensures { result ≡ found_from pick 0 0 heads.now }
{
    let mut before: usize = 0;
    for i in (0..heads.len()).step_by(4) {
        match find_four(&heads[i..], pick - before) {
            Ok(k) => return Ok(i + k),
            Err(k) => before += k,
        }
    }
    Err(before)
}

// The pick-th ready record of the live ones. A row that is live to its end is searched whole: its length is known then, and the
// search is laid out without a loop.
pub fn find_live(heads: &[u64], live: usize, pick: usize) -> Result<usize, usize>
    ensures { result ≡ found_from pick 0 0 (take live heads.now) }
{
    if heads.len() <= live {
        return find(heads, pick);
    }
    find(&heads[..live], pick)
}
