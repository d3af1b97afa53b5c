// Whether the lent state is sound: seat by seat, and zero behind the last.
ghost use Rattle.std.specs.Prelude.{◌≡◌, ◌≤◌};
ghost use Rattle.state.specs.State.{state_of, Enough, long, within, ahead, bare, fair_at, first_in, stand_from, state_sound, Ahead, Long};

use crate::limits;
use inspection::sound::{self, Seat};
use lent::{get, is_bare};
use std::ops::ControlFlow;

// The six lent buffers: all seats' parts, one after the other.
#[derive(Clone, Copy)]
pub struct Lent<'a> {
    pub book: &'a [u32],
    pub tags: &'a [u16],
    pub words: &'a [u64],
    pub heads: &'a [u64],
    pub accs: &'a [u64],
    pub images: &'a [u8],
}

impl<'a> Lent<'a> {
    // Whether each buffer has its minimum length.
    #[tactic(auto, unfolding(crate::specs::State::long))]
    pub fn is_long(self) -> bool
        ensures { result ≡ long (state_of self.entry) }
    {
        limits::is_long(
            self.book.len(),
            self.tags.len(),
            self.words.len(),
            self.heads.len(),
            self.accs.len(),
            self.images.len(),
        )
    }

    // What of the buffers is the machine's.
    fn within(self) -> Lent<'a>
        requires { Enough (state_of self) }
        ensures { state_of result ≡ within (state_of self.entry) }
    {
        Lent {
            book: &self.book[..72],
            tags: &self.tags[..2048],
            words: &self.words[..2048],
            heads: &self.heads[..256],
            accs: &self.accs[..256],
            images: &self.images[..32768],
        }
    }

    // The seats from the k-th on, their cells from a on.
    fn ahead(self, k: usize, a: usize) -> Lent<'a>
        requires all_seats { Long 8 2048 (state_of self) }
        requires seats { k ≤ 8 }
        requires cells { a ≤ 2048 }
        ensures { state_of result ≡ ahead k a (state_of self.entry) }
    {
        Lent {
            book: &self.book[k * 9..],
            tags: &self.tags[a..],
            words: &self.words[a..],
            heads: &self.heads[k * 32..],
            accs: &self.accs[k * 32..],
            images: &self.images[k * 4096..],
        }
    }

    #[tactic(auto, unfolding(crate::specs::State::bare))]
    fn is_bare(self) -> bool
        ensures { result ≡ bare (state_of self.entry) }
    {
        is_bare(self.book)
            && sound::parts_bare(self.tags, self.words, self.heads, self.accs, self.images)
    }

    // The first seat's share is fair, and there are cells left for it.
    #[tactic(auto, unfolding(crate::specs::State::fair_at))]
    fn is_fair_at(self, start: u32) -> bool
        ensures { result ≡ fair_at start (state_of self.entry) }
    {
        let cells = get(self.book, 0, 0);
        limits::is_fair(cells, get(self.book, 1, 0)) && start as usize + cells as usize <= 2048
    }
}

// What is found of the first seat of those left, whose region starts at `start`: a sound one goes on, with so many cells;
// none, or an unsound one, breaks with whether the state is sound.
#[tactic(auto, unfolding(crate::specs::State::first_in, crate::specs::State::fair_at))]
fn first_of(lent: Lent, start: u32) -> ControlFlow<bool, usize>
    requires { Ahead start (state_of lent) }
    ensures { result ≡ first_in start (state_of lent.entry) }
{
    let cells = get(lent.book, 0, 0) as usize;
    if cells == 0 {
        return ControlFlow::Break(lent.is_bare());
    }
    if !lent.is_fair_at(start) {
        return ControlFlow::Break(false);
    }
    let first = Seat {
        book: &lent.book[..9],
        tags: &lent.tags[..cells],
        words: &lent.words[..cells],
        heads: &lent.heads[..32],
        accs: &lent.accs[..32],
        image: &lent.images[..4096],
    };
    if !sound::seat_sound(first, start) {
        return ControlFlow::Break(false);
    }
    ControlFlow::Continue(cells)
}

// All seats, over exactly the least length of each buffer.
fn seats_stand(lent: Lent) -> bool
    requires { Long 8 2048 (state_of lent) }
    ensures { result ≡ stand_from 8 0 (state_of lent.entry) }
{
    let mut a: usize = 0;
    for k in 0..8 {
        match first_of(lent.ahead(k, a), a as u32) {
            ControlFlow::Break(stands) => return stands,
            ControlFlow::Continue(cells) => a += cells,
        }
    }
    lent.ahead(8, a).is_bare()
}

#[tactic(auto, unfolding(crate::specs::State::state_sound))]
pub fn is_sound(lent: Lent) -> bool
    ensures { result ≡ state_sound (state_of lent.entry) }
{
    if !lent.is_long() {
        return false;
    }
    get(lent.book, 0, 0) != 0 && seats_stand(lent.within())
}
