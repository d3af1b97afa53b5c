// One seat's report.
#![tactic(auto)]

ghost use Rattle.std.specs.Prelude.{◌≡◌};
ghost use Rattle.reports.specs.Report.{standing, status_in, outcome_in, position_in, report_by, report_on};

use book::Tally;
use cells::Cells;
use inspection::sound;
use lent::get;
use rules::{Report, Slot, Status};
use threads::find_ready;
use value::Value;

#[tactic(auto, unfolding(crate::specs::Report::standing))]
fn standing_of(n: Tally, found: Result<usize, usize>) -> Status
    ensures { result ≡ standing n found }
{
    match found {
        Ok(_) => Status::Running,
        Err(_) if n.live == 0 => Status::Finished,
        Err(_) => Status::Deadlocked,
    }
}

#[tactic(auto, unfolding(crate::specs::Report::status_in))]
fn status_of(n: Tally, found: Result<usize, usize>) -> Status
    ensures { result ≡ status_in n found }
{
    if n.length == 0 {
        Status::Vacant
    } else if n.refusal == 0 {
        standing_of(n, found)
    } else {
        Status::Refused
    }
}

#[tactic(auto, unfolding(crate::specs::Report::outcome_in))]
fn outcome_of(s: Slot) -> Option<Value>
    ensures { result ≡ outcome_in s }
{
    match s {
        Slot::Full(_, v) => Some(v),
        Slot::Missing | Slot::Empty(_) => None,
    }
}

#[tactic(auto, unfolding(crate::specs::Report::position_in))]
fn position_of(n: Tally, heads: &[u64]) -> u16
    ensures { result ≡ position_in n heads.now }
{
    if n.refusal == 0 {
        return 0;
    }
    sound::position_of(get(heads, n.halted as usize, 0))
}

#[tactic(auto, unfolding(crate::specs::Report::report_by))]
fn report_by(n: Tally, tags: &[u16], words: &[u64], heads: &[u64]) -> Report
    ensures { result ≡ report_by n tags.now words.now heads.now }
{
    let cells = Cells {
        tags,
        words,
        used: n.used,
        start: 0,
    };
    Report {
        status: status_of(n, find_ready(heads, 0)),
        refusal: (n.refusal % 256) as u8,
        position: position_of(n, heads),
        used: n.used,
        live: n.live,
        steps: n.steps,
        result: outcome_of(cells.look(0)),
    }
}

#[tactic(auto, unfolding(crate::specs::Report::report_on))]
pub fn report_seat(book: &[u32], tags: &[u16], words: &[u64], heads: &[u64]) -> Report
    ensures { result ≡ report_on book.now tags.now words.now heads.now }
{
    report_by(book::read_book(book), tags, words, heads)
}
