// Reporting: how a seat's claim stands. Nothing is written.
#![tactic(auto)]

ghost use Rattle.std.specs.Prelude.{◌≡◌};
ghost use Rattle.rules.specs.Refused.{answered, answered_at};
ghost use Rattle.state.specs.State.{state, state_of, Stands, machine_of};
ghost use Rattle.calls.specs.Calls as Calls;

use rules::{CallRefusal, Report, Status};
use state::whole::Lent;
use state::{seats, whole};

// On a sound state.
fn report_in(lent: Lent, seat: u32) -> Result<Report, CallRefusal>
    requires { Stands (state_of lent) }
    ensures outcome { Calls.shown_in (machine_of (state_of lent.entry)) seat ≡ Calls.shown (answered result) (Calls.reported result) }
    ensures placeless { answered_at result ≡ 0 }
{
    let k = seat as usize;
    let Some(region) = seats::region_of(lent.book, k) else {
        return Err(CallRefusal::NoSuchSeat);
    };
    let a = region.start;
    let e = region.end;
    let b = k * 9;
    let d = b + 9;
    let h = k * 32;
    let g = h + 32;
    Ok(reports::report_seat(
        &lent.book[b..d],
        &lent.tags[a..e],
        &lent.words[a..e],
        &lent.heads[h..g],
    ))
}

// What a report says; of a refused one zeros, with no result.
#[tactic(auto, unfolding(rules::specs::Calls::blank))]
pub fn reported(answer: Result<Report, CallRefusal>) -> Report
    ensures { result ≡ Calls.reported answer }
{
    answer.unwrap_or(Report {
        status: Status::Vacant,
        refusal: 0,
        position: 0,
        used: 0,
        live: 0,
        steps: 0,
        result: None,
    })
}

// How the seat's claim stands.
pub fn report(
    book: &[u32],
    tags: &[u16],
    words: &[u64],
    heads: &[u64],
    accs: &[u64],
    images: &[u8],
    seat: u32,
) -> Result<Report, CallRefusal>
    ensures outcome { Calls.report_call (state book.now tags.now words.now heads.now accs.now images.now) seat ≡ Calls.shown (answered result) (Calls.reported result) }
    ensures placeless { answered_at result ≡ 0 }
{
    let lent = Lent {
        book,
        tags,
        words,
        heads,
        accs,
        images,
    };
    if !whole::is_sound(lent) {
        return Err(CallRefusal::Unsound);
    }
    report_in(lent, seat)
}
