// One pick on one seat: which thread runs, what it does, and what is written.
#![tactic(auto)]

ghost use Rattle.std.specs.Prelude.{◌≡◌, ◌%◌, take};
ghost use Rattle.rules.specs.Turn.{answer_number};
ghost use Rattle.threads.specs.Row.{found_from};
ghost use Rattle.effects.specs.Enacted.{parts, turned};
ghost use Rattle.turn.specs.Turn as Turn;

use book::Tally;
use cells::Cells;
use image::records;
use lent::get;
use rules::{Answer, Effect, Thread};
use slots::Standing;

// The row place of the thread to run, or the answer where none runs.
#[tactic(auto, unfolding(crate::specs::Turn::gate_by))]
fn gate_by(n: Tally, found: Result<usize, usize>) -> Result<usize, Answer>
    ensures { result ≡ Turn.gate_by n found }
{
    if found == Err(0) {
        return Err(Answer::NotRunning);
    }
    if n.steps == u32::MAX {
        return Err(Answer::StepsSpent);
    }
    found.ok().ok_or(Answer::NoSuchPick)
}

// The row is searched only where a claim may run, and only its live records.
#[tactic(auto, unfolding(crate::specs::Turn::gate_of))]
fn gate_of(n: Tally, heads: &[u64], pick: usize) -> Result<usize, Answer>
    ensures { result ≡ Turn.gate_of n (found_from pick 0 0 (take n.live heads.now)) }
{
    if n.length == 0 {
        return Err(Answer::NotRunning);
    }
    if n.refusal != 0 {
        return Err(Answer::NotRunning);
    }
    gate_by(n, rows::find_live(heads, n.live as usize, pick))
}

// What the thread's instruction asks for, before room is tested: nothing is written.
fn asked(image: &[u8], start: u32, n: Tally, tags: &[u16], words: &[u64], th: Thread) -> Effect
    ensures { result ≡ Turn.asked_in image.now start n tags.now words.now th }
{
    match records::fetch(image, n.code, th.position) {
        Some((i, after)) => {
            let cells = Cells {
                tags,
                words,
                used: n.used,
                start,
            };
            let at = Standing {
                cells,
                after: threads::low16(after as u64),
                thread: th,
            };
            choose::choose(at, i)
        }
        None => Effect::Ends,
    }
}

pub fn turn(
    book: &mut [u32],
    tags: &mut [u16],
    words: &mut [u64],
    heads: &mut [u64],
    accs: &mut [u64],
    image: &[u8],
    start: u32,
    pick: usize,
) -> Answer
    ensures { Turn.turn_on image.now start pick (parts book.old tags.old words.old heads.old accs.old) ≡ turned (answer_number result) (parts book.new tags.new words.new heads.new accs.new) }
{
    let n = book::read_book(&book[..]);
    match gate_of(n, &heads[..], pick) {
        Err(answer) => answer,
        Ok(i) => {
            let th = threads::thread_in(get(&heads[..], i, 0), get(&accs[..], i, 0));
            let e = asked(image, start, n, &tags[..], &words[..], th);
            effects::perform(book, tags, words, heads, accs, e, start, i)
        }
    }
}
