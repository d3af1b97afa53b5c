// A run: the entries of a schedule, one after the other.
#![tactic(auto)]

ghost use Rattle.std.specs.Prelude.{◌≡◌, ◌+◌, ◌≤◌, ◌<◌, length};
ghost use Rattle.rules.specs.Calls.{picks};
ghost use Rattle.rules.specs.Refused.{answered, answered_at};
ghost use Rattle.rules.specs.Turn.{answer_number};
ghost use Rattle.state.specs.State.{state, Stands, machine_of};
ghost use Rattle.calls.specs.Calls as Calls;

use lent::get;
use rules::{Answer, CallRefusal};
use state::whole::Lent;
use state::{seats, whole};

// One entry, on a sound state.
fn step(
    book: &mut [u32],
    tags: &mut [u16],
    words: &mut [u64],
    heads: &mut [u64],
    accs: &mut [u64],
    images: &[u8],
    seat: u8,
    pick: u8,
) -> Answer
    requires { Stands (state book.old tags.old words.old heads.old accs.old images.now) }
    ensures { Calls.said_to (machine_of (state book.old tags.old words.old heads.old accs.old images.now)) (state book.old tags.old words.old heads.old accs.old images.now) seat (picks pick) ≡ Calls.moved (answer_number result) (state book.new tags.new words.new heads.new accs.new images.now) }
{
    let k = seat as usize;
    let Some(region) = seats::region_of(&book[..], k) else {
        return Answer::NoSuchSeat;
    };
    let a = region.start;
    let e = region.end;
    let b = k * 9;
    let d = b + 9;
    let h = k * 32;
    let g = h + 32;
    let i = k * 4096;
    let j = i + get(&book[..], b + 2, 0) as usize;
    turn::turn(
        &mut book[b..d],
        &mut tags[a..e],
        &mut words[a..e],
        &mut heads[h..g],
        &mut accs[h..g],
        &images[i..j],
        a as u32,
        pick as usize,
    )
}

// The entries of a schedule, n of them, with an answer each.
fn run_all(
    book: &mut [u32],
    tags: &mut [u16],
    words: &mut [u64],
    heads: &mut [u64],
    accs: &mut [u64],
    images: &[u8],
    schedule: &[u8],
    answers: &mut [u8],
    n: usize,
)
    requires stands { Stands (state book.old tags.old words.old heads.old accs.old images.now) }
    requires schedule_len { (length schedule.now ≡ n + n) × (n ≤ length answers.old) }
    ensures { Calls.ran_on (machine_of (state book.old tags.old words.old heads.old accs.old images.now)) (state book.old tags.old words.old heads.old accs.old images.now) schedule.now answers.old ≡ Calls.ran 0 (state book.new tags.new words.new heads.new accs.new images.now) answers.new }
{
    for i in 0..n {
        let answer = step(
            book,
            tags,
            words,
            heads,
            accs,
            images,
            schedule[i + i],
            schedule[i + i + 1],
        );
        answers[i] = u8::from(answer);
    }
}

// The entries of a schedule, two bytes each: seat, pick. An answer an entry is written to the front of `answers`.
#[tactic(auto, using(std::proofs::lemmas::Bool::Decides::nat_tests), unfolding(calls::specs::Calls::run_call, calls::specs::Calls::run_with, state::specs::State::claims_of))]
pub fn run(
    book: &mut [u32],
    tags: &mut [u16],
    words: &mut [u64],
    heads: &mut [u64],
    accs: &mut [u64],
    images: &[u8],
    schedule: &[u8],
    answers: &mut [u8],
) -> Result<(), CallRefusal>
    ensures outcome { Calls.run_call (state book.old tags.old words.old heads.old accs.old images.now) schedule.now answers.old ≡ Calls.ran (answered result) (state book.new tags.new words.new heads.new accs.new images.now) answers.new }
    ensures placeless { answered_at result ≡ 0 }
{
    let lent = Lent {
        book: &book[..],
        tags: &tags[..],
        words: &words[..],
        heads: &heads[..],
        accs: &accs[..],
        images,
    };
    if !whole::is_sound(lent) {
        return Err(CallRefusal::Unsound);
    }
    let n = schedule.len();
    if n % 2 != 0 {
        return Err(CallRefusal::BadSchedule);
    }
    if 65534 < n {
        return Err(CallRefusal::BadSchedule);
    }
    let m = n / 2;
    if answers.len() < m {
        return Err(CallRefusal::NoRoomForAnswers);
    }
    run_all(book, tags, words, heads, accs, images, schedule, answers, m);
    Ok(())
}
