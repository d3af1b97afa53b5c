// Clearing: a seat as opening gave it.
#![tactic(auto)]

ghost use Rattle.std.specs.Prelude.{◌≡◌};
ghost use Rattle.rules.specs.Calls.{clears};
ghost use Rattle.rules.specs.Refused.{answered, answered_at};
ghost use Rattle.state.specs.State.{state, Stands, machine_of};
ghost use Rattle.calls.specs.Calls as Calls;

use rules::CallRefusal;
use state::whole::Lent;
use state::{seats, whole};

// On a sound state.
fn clear_in(
    book: &mut [u32],
    tags: &mut [u16],
    words: &mut [u64],
    heads: &mut [u64],
    accs: &mut [u64],
    images: &mut [u8],
    seat: u32,
) -> Result<(), CallRefusal>
    requires { Stands (state book.old tags.old words.old heads.old accs.old images.old) }
    ensures outcome { Calls.said_to (machine_of (state book.old tags.old words.old heads.old accs.old images.old)) (state book.old tags.old words.old heads.old accs.old images.old) seat clears ≡ Calls.moved (answered result) (state book.new tags.new words.new heads.new accs.new images.new) }
    ensures placeless { answered_at result ≡ 0 }
{
    let k = seat as usize;
    let Some(region) = seats::region_of(&book[..], k) else {
        return Err(CallRefusal::NoSuchSeat);
    };
    let a = region.start;
    let e = region.end;
    let b = k * 9;
    let d = b + 9;
    let h = k * 32;
    let g = h + 32;
    let i = k * 4096;
    let j = i + 4096;
    lodging::clear_seat(
        &mut book[b..d],
        &mut tags[a..e],
        &mut words[a..e],
        &mut heads[h..g],
        &mut accs[h..g],
        &mut images[i..j],
    )
}

// Brings back what opening gave the seat.
pub fn clear(
    book: &mut [u32],
    tags: &mut [u16],
    words: &mut [u64],
    heads: &mut [u64],
    accs: &mut [u64],
    images: &mut [u8],
    seat: u32,
) -> Result<(), CallRefusal>
    ensures outcome { Calls.clear_call (state book.old tags.old words.old heads.old accs.old images.old) seat ≡ Calls.moved (answered result) (state book.new tags.new words.new heads.new accs.new images.new) }
    ensures placeless { answered_at result ≡ 0 }
{
    let lent = Lent {
        book: &book[..],
        tags: &tags[..],
        words: &words[..],
        heads: &heads[..],
        accs: &accs[..],
        images: &images[..],
    };
    if !whole::is_sound(lent) {
        return Err(CallRefusal::Unsound);
    }
    clear_in(book, tags, words, heads, accs, images, seat)
}
