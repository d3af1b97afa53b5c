// Where a seat's parts lie.
ghost use Rattle.std.specs.Prelude.{◌≡◌, ◌≤◌};
ghost use Rattle.state.specs.Seats.{Base, region_in};

use lent::get;

// A seat's region: its cells, from the first to behind the last.
#[derive(Clone, Copy, Debug, PartialEq, Eq)]
pub struct Region {
    pub start: usize,
    pub end: usize,
}

// Where seat k's cells start: the sum of the shares before it.
#[tactic(auto, unfolding(crate::specs::Seats::base_of))]
fn base_of(book: &[u32], k: usize) -> usize
    requires { k ≤ 8 }
    ensures { Base book.now k result }
{
    let mut sum: usize = 0;
    for i in 0..k {
        sum += get(book, i * 9, 0) as usize;
    }
    sum
}

// A seat is there if its cell share is not 0.
#[tactic(auto, unfolding(crate::specs::Seats::region_in))]
pub fn region_of(book: &[u32], k: usize) -> Option<Region>
    ensures { result ≡ region_in book.now k }
{
    if 8 <= k {
        return None;
    }
    let cells = get(book, k * 9, 0) as usize;
    if cells == 0 {
        return None;
    }
    let start = base_of(book, k);
    Some(Region {
        start,
        end: start + cells,
    })
}
