// The nine numbers of a seat's book: read, changed by an effect, and written back.
#![tactic(auto)]

ghost use Rattle.std.specs.Prelude.{◌≡◌, set};
ghost use Rattle.book.specs.Book.{tally_in, sum_or, narrow, next_step};

use lent::{get, put};

// Where an effect changes a number.
pub const USED: usize = 4;

pub const LIVE: usize = 5;

#[derive(Clone, Copy, Debug, PartialEq, Eq)]
pub struct Tally {
    pub cells: u32,
    pub threads: u32,
    pub length: u32,
    pub code: u32,
    pub used: u32,
    pub live: u32,
    pub refusal: u32,
    pub halted: u32,
    pub steps: u32,
}

#[tactic(auto, unfolding(crate::specs::Book::tally_in))]
pub fn read_book(book: &[u32]) -> Tally
    ensures { result ≡ tally_in book.now }
{
    Tally {
        cells: get(book, 0, 0),
        threads: get(book, 1, 0),
        length: get(book, 2, 0),
        code: get(book, 3, 0),
        used: get(book, 4, 0),
        live: get(book, 5, 0),
        refusal: get(book, 6, 0),
        halted: get(book, 7, 0),
        steps: get(book, 8, 0),
    }
}

#[tactic(auto, unfolding(crate::specs::Book::sum_or))]
pub fn sum_or(a: u32, b: u32) -> u32
    ensures { result ≡ sum_or a b }
{
    a.checked_add(b).unwrap_or(a)
}

// saturating_add by one; the name is that of the sum its clause cites.
pub fn one_more(n: u32) -> u32
    ensures { result ≡ sum_or n 1 }
{
    sum_or(n, 1)
}

#[tactic(auto, unfolding(crate::specs::Book::narrow))]
fn narrowed(i: usize) -> u32
    ensures { result ≡ narrow i }
{
    u32::try_from(i).unwrap_or(0)
}

// The steps of a book, and one more.
fn next_step(book: &[u32]) -> u32
    ensures { result ≡ next_step book.now }
{
    one_more(get(book, 8, 0))
}

// One step more.
pub fn count(book: &mut [u32])
    ensures { book.new ≡ set book.old 8 (next_step book.old) }
{
    let steps = next_step(book);
    put(book, 8, steps);
}

// One step more, and one other number of the book changed.
pub fn count_with(book: &mut [u32], at: usize, n: u32)
    ensures { book.new ≡ set (set book.old at n) 8 (next_step book.old) }
{
    let steps = next_step(book);
    put(book, at, n);
    put(book, 8, steps);
}

// One step more, and the claim refused, its thread at place i of the row.
pub fn count_refused(book: &mut [u32], m: u8, i: usize)
    ensures { book.new ≡ set (set (set book.old 6 m) 7 (narrow i)) 8 (next_step book.old) }
{
    put(book, 6, u32::from(m));
    put(book, 7, narrowed(i));
    count(book);
}
