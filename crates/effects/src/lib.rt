// What an instruction asks for, written to the parts that it changes: one arm an effect, room tested first.
#![tactic(auto)]

ghost use Rattle.std.specs.Prelude.{◌≡◌, List, ℕ};
ghost use Rattle.rules.specs.declared.Effect.TheVariants.{Makes, Spawns, Refuses};
ghost use Rattle.rules.specs.Turn.{answer_number};
ghost use Rattle.effects.specs.Enacted as Enacted;

use book::{LIVE, USED};
use lent::get;
use rules::{Answer, Effect, Kind, Thread};
use value::refusals::Refusal;

fn refuse(book: &mut [u32], m: u8, i: usize) -> Answer
    ensures { (tags words heads accs : List ℕ) (start : ℕ) → Enacted.enacted (Refuses m) start i (Enacted.parts book.old tags words heads accs) ≡ Enacted.turned (answer_number result) (Enacted.parts book.new tags words heads accs) }
{
    book::count_refused(book, m, i);
    Answer::Refused
}

// New cells, if the share has room for them.
fn make(
    book: &mut [u32],
    tags: &mut [u16],
    heads: &mut [u64],
    accs: &mut [u64],
    k: Kind,
    m: u16,
    t: Thread,
    i: usize,
) -> Answer
    ensures { (words : List ℕ) (start : ℕ) → Enacted.enacted (Makes t k m) start i (Enacted.parts book.old tags.old words heads.old accs.old) ≡ Enacted.turned (answer_number result) (Enacted.parts book.new tags.new words heads.new accs.new) }
{
    let cells = get(&book[..], 0, 0);
    let used = get(&book[..], USED, 0);
    if (cells as u64) < used as u64 + m as u64 {
        return refuse(book, u8::from(Refusal::NoCellsLeft), i);
    }
    cells::make(tags, used, k, m);
    threads::put_record(heads, accs, i, 1, t);
    book::count_with(book, USED, book::sum_or(used, u32::from(m)));
    Answer::RanOn
}

// A new thread, if the share has room for it.
fn spawn(
    book: &mut [u32],
    heads: &mut [u64],
    accs: &mut [u64],
    new: Thread,
    t: Thread,
    i: usize,
) -> Answer
    ensures { (tags words : List ℕ) (start : ℕ) → Enacted.enacted (Spawns t new) start i (Enacted.parts book.old tags words heads.old accs.old) ≡ Enacted.turned (answer_number result) (Enacted.parts book.new tags words heads.new accs.new) }
{
    let share = get(&book[..], 1, 0);
    let live = get(&book[..], LIVE, 0);
    if share <= live {
        return refuse(book, u8::from(Refusal::NoThreadsLeft), i);
    }
    threads::spawn_record(heads, accs, i, live, new, t);
    book::count_with(book, LIVE, book::one_more(live));
    Answer::RanOn
}

// The effect of the thread at place i of the row, its step counted, and the entry's answer.
pub fn perform(
    book: &mut [u32],
    tags: &mut [u16],
    words: &mut [u64],
    heads: &mut [u64],
    accs: &mut [u64],
    e: Effect,
    start: u32,
    i: usize,
) -> Answer
    ensures { Enacted.enacted e start i (Enacted.parts book.old tags.old words.old heads.old accs.old) ≡ Enacted.turned (answer_number result) (Enacted.parts book.new tags.new words.new heads.new accs.new) }
{
    let used = get(&book[..], USED, 0);
    let live = get(&book[..], LIVE, 0);
    match e {
        Effect::Goes(t) => {
            threads::put_record(heads, accs, i, 1, t);
            book::count(book);
            Answer::RanOn
        }
        Effect::Ends => {
            threads::take_record(heads, accs, i);
            book::count_with(book, LIVE, live.saturating_sub(1));
            Answer::Ended
        }
        Effect::Waits(t, l) => {
            threads::wait_record(heads, accs, i, live, l, t);
            book::count(book);
            Answer::Waits
        }
        Effect::Fills(t, k, l, v) => {
            cells::fill(tags, words, used, start, k, l, v);
            threads::wake_record(heads, accs, i, live, l, t);
            book::count(book);
            Answer::RanOn
        }
        Effect::Empties(t, l) => {
            cells::empty(tags, words, used, start, l);
            threads::put_record(heads, accs, i, 1, t);
            book::count(book);
            Answer::RanOn
        }
        Effect::Makes(t, k, m) => make(book, tags, heads, accs, k, m, t, i),
        Effect::Spawns(t, new) => spawn(book, heads, accs, new, t, i),
        Effect::Refuses(m) => refuse(book, m, i),
    }
}
