// Whether a seat's parts of the lent buffers are those of a sound claim: every clause of document 01, and zero wherever nothing is held.
ghost use Rattle.std.specs.Prelude.{◌≡◌, ◌/◌, ◌%◌, ℕ, Bool, length};
ghost use Rattle.rules.specs.Sound.{is_empty};
ghost use Rattle.inspection.specs.Seats.{parts_of, ground_of};
ghost use Rattle.inspection.specs.Sound.{sound_on};
ghost use Rattle.inspection.specs.Tests as Tests;

use book::Tally;
use cells::Cells;
use image::reader::{Fault, Layout};
use image::{reader, starts};
use lent::{Zero, get, is_bare, is_bytes};
use rules::Slot;
use threads::{Placed, low16};
use value::coding;

// A seat's parts of the lent buffers.
#[derive(Clone, Copy)]
pub struct Seat<'a> {
    pub book: &'a [u32],
    pub tags: &'a [u16],
    pub words: &'a [u64],
    pub heads: &'a [u64],
    pub accs: &'a [u64],
    pub image: &'a [u8],
}

// What the threads of a claim stand on: its cells, its image, and where its code starts.
#[derive(Clone, Copy)]
struct Ground<'a> {
    cells: Cells<'a>,
    image: &'a [u8],
    code: u32,
}

// A test of two numbers that stand for an element.
trait Judge<T> {
    ghost passes: { Self → T → ℕ → Bool };

    fn passes(&self, number: T, word: u64) -> bool
        ensures { result ≡ passes self.now number word };
}

// A cell is judged by its tag and its word alone.
struct Alone;

impl Judge<u16> for Alone {
    ghost passes = { λ _. Tests.cell_stands };

    fn passes(&self, tag: u16, word: u64) -> bool {
        cell_stands(tag, word)
    }
}

// A thread's record by what the threads stand on.
impl<'a> Judge<u64> for Ground<'a> {
    ghost passes = { λ g. Tests.record_stands (ground_of g) };

    fn passes(&self, head: u64, word: u64) -> bool {
        record_stands(*self, head, word)
    }
}

// Two lists of one length, whose pairs all pass.
fn each_passes<T: Copy, J: Judge<T>>(judge: &J, numbers: &[T], words: &[u64]) -> bool
    requires { length words.now ≡ length numbers.now }
    ensures { result ≡ Tests.each_pair (J.passes judge.now) numbers.now words.now }
{
    for (number, word) in numbers.iter().zip(words) {
        if !judge.passes(*number, *word) {
            return false;
        }
    }
    true
}

// The first k pairs pass, and the rest are bare.
#[tactic(auto, unfolding(crate::specs::Tests::held_by))]
fn held<T: Zero, J: Judge<T>>(judge: &J, numbers: &[T], words: &[u64], k: u32) -> bool
    ensures { result ≡ Tests.held_by T.is_zero (J.passes judge.now) k numbers.now words.now }
{
    let k = k as usize;
    k <= numbers.len()
        && k <= words.len()
        && each_passes(judge, &numbers[..k], &words[..k])
        && is_bare(&numbers[k..])
        && is_bare(&words[k..])
}

// A cell's tag and word: an empty cell's word is 0, a full one's value is well formed, and no other bit is set.
#[tactic(auto, using(crate::proofs::Cells::cell_is))]
fn cell_stands(tag: u16, word: u64) -> bool
    ensures { result ≡ Tests.cell_stands tag word }
{
    let kept = tag % 8;
    tag < 16
        && if kept == 0 {
            word == 0
        } else {
            coding::decode(kept, word).is_some()
        }
}

// The used cells, and the rest bare.
#[tactic(auto, using(crate::proofs::Pairs::store_is))]
fn store_stands(cells: Cells) -> bool
    ensures { result ≡ Tests.store_stands cells.entry.used cells.entry.tags.now cells.entry.words.now }
{
    held(&Alone, cells.tags, cells.words, cells.used)
}

#[tactic(auto, unfolding(rules::specs::Sound::is_empty))]
fn is_empty(s: Slot) -> bool
    ensures { result ≡ is_empty s }
{
    matches!(s, Slot::Empty(_))
}

// A thread's place: ready, or waiting on an empty cell of the seat.
#[tactic(auto, unfolding(crate::specs::Tests::place_on, crate::specs::Tests::place_stands, laying::specs::Back::place_read))]
fn place_stands(ground: Ground, place: u16) -> bool
    ensures { result ≡ Tests.place_stands (ground_of ground.entry) place }
{
    match place {
        0 => false,
        1 => true,
        _ => is_empty(ground.cells.look(place as usize - 2)),
    }
}

// A head's position.
pub fn position_of(head: u64) -> u16
    ensures { result ≡ head / 65536 % 65536 }
{
    low16(head / 65536)
}

fn tag_of(head: u64) -> u16
    ensures { result ≡ head / 281474976710656 % 65536 }
{
    low16(head / 281474976710656)
}

// A thread's record: its accumulator well formed, its place sound, its position an instruction's start.
#[tactic(auto, using(crate::proofs::Heads::record_is))]
fn record_stands(ground: Ground, head: u64, word: u64) -> bool
    ensures { result ≡ Tests.record_stands (ground_of ground.entry) head word }
{
    let acc = coding::decode(tag_of(head), word);
    acc.is_some()
        && place_stands(ground, head.place())
        && starts::is_start(ground.image, ground.code, position_of(head))
}

// The live threads, and the rest bare.
#[tactic(auto, using(crate::proofs::Pairs::row_is))]
fn row_stands(ground: Ground, live: u32, heads: &[u64], accs: &[u64]) -> bool
    ensures { result ≡ Tests.row_stands (ground_of ground.entry) live heads.now accs.now }
{
    held(&ground, heads, accs, live)
}

// No refusal and no refused thread, or a refusal of 1 to 9 and a ready thread.
#[tactic(auto, unfolding(crate::specs::Tests::refusal_stands))]
fn refusal_stands(n: Tally, heads: &[u64]) -> bool
    ensures { result ≡ Tests.refusal_stands n heads.now }
{
    if n.refusal == 0 {
        return n.halted == 0;
    }
    n.refusal <= 9 && n.halted < n.live && get(heads, n.halted as usize, 0).place() == 1
}

// The numbers of the book, beside the reader's: slots of the root frame, and the start of the code.
#[tactic(auto, unfolding(crate::specs::Tests::numbers_stand))]
fn numbers_stand(n: Tally, g: Layout) -> bool
    ensures { result ≡ Tests.numbers_stand n g }
{
    n.code as usize == g.code
        && u32::from(g.slots) <= n.used
        && n.used <= n.cells
        && n.live <= n.threads
        && n.live <= 32
}

#[tactic(auto, unfolding(crate::specs::Tests::accepted_stands))]
fn accepted_stands(n: Tally, read: Result<Layout, Fault>) -> bool
    ensures { result ≡ Tests.accepted_stands n read }
{
    match read {
        Ok(g) => numbers_stand(n, g),
        Err(_) => false,
    }
}

// A claim in use: the seat's image is cut to its length.
#[tactic(auto, unfolding(crate::specs::Tests::claim_stands))]
fn claim_stands(n: Tally, start: u32, seat: Seat) -> bool
    ensures { result ≡ Tests.claim_stands n start (parts_of seat.entry) }
{
    let cells = Cells {
        tags: seat.tags,
        words: seat.words,
        used: n.used,
        start,
    };
    let ground = Ground {
        cells,
        image: seat.image,
        code: n.code,
    };
    accepted_stands(n, reader::read(seat.image))
        && is_bytes(seat.image)
        && store_stands(cells)
        && row_stands(ground, n.live, seat.heads, seat.accs)
        && refusal_stands(n, seat.heads)
}

// A book with nothing but its shares; the image's length is tested before.
#[tactic(auto, unfolding(crate::specs::Tests::is_idle))]
fn is_idle(n: Tally) -> bool
    ensures { result ≡ Tests.is_idle n }
{
    n.code == 0 && n.used == 0 && n.live == 0 && n.refusal == 0 && n.halted == 0 && n.steps == 0
}

// Every part but the book is bare.
#[tactic(auto, unfolding(crate::specs::Tests::parts_bare))]
pub fn parts_bare(tags: &[u16], words: &[u64], heads: &[u64], accs: &[u64], image: &[u8]) -> bool
    ensures { result ≡ Tests.parts_bare tags.now words.now heads.now accs.now image.now }
{
    is_bare(tags) && is_bare(words) && is_bare(heads) && is_bare(accs) && is_bare(image)
}

// A vacant seat: nothing but its shares.
#[tactic(auto, unfolding(crate::specs::Tests::vacant_stands))]
fn vacant_stands(n: Tally, seat: Seat) -> bool
    ensures { result ≡ Tests.vacant_stands n (parts_of seat.entry) }
{
    is_idle(n) && parts_bare(seat.tags, seat.words, seat.heads, seat.accs, seat.image)
}

// Each part has its length.
#[tactic(auto, unfolding(crate::specs::Tests::lengths_stand))]
fn lengths_stand(seat: Seat) -> bool
    ensures { result ≡ Tests.lengths_stand (parts_of seat.entry) }
{
    let share = get(seat.book, 0, 0) as usize;
    seat.book.len() == 9
        && seat.tags.len() == share
        && seat.words.len() == share
        && seat.heads.len() == 32
        && seat.accs.len() == 32
        && seat.image.len() == 4096
}

// The image has room for that length, and zeros behind it.
#[tactic(auto, unfolding(crate::specs::Tests::image_stands))]
fn image_stands(length: u32, image: &[u8]) -> bool
    ensures { result ≡ Tests.image_stands length image.now }
{
    let k = length as usize;
    k <= image.len() && is_bare(&image[k..])
}

// A seat whose parts have their lengths, by the numbers of its book.
#[tactic(auto, unfolding(crate::specs::Tests::image_stands, crate::specs::Tests::seat_stands))]
fn seat_stands(n: Tally, seat: Seat, start: u32) -> bool
    ensures { result ≡ Tests.seat_stands start n (parts_of seat.entry) }
{
    if n.length == 0 {
        return vacant_stands(n, seat);
    }
    if !image_stands(n.length, seat.image) {
        return false;
    }
    let image = &seat.image[..n.length as usize];
    claim_stands(n, start, Seat { image, ..seat })
}

// Any lengths and any contents: whether they are the parts of a sound claim, whose region starts at `start`.
#[tactic(auto, using(crate::proofs::Same::sound_is))]
pub fn seat_sound(seat: Seat, start: u32) -> bool
    ensures { result ≡ sound_on start (parts_of seat.entry) }
{
    lengths_stand(seat) && seat_stands(book::read_book(seat.book), seat, start)
}
