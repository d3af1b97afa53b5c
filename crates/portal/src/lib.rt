// The five public calls for C and Rust: thin exports, numbers only. A slice goes as a pointer and a length. The C interface has
// the six buffers, the numbers and the two structs.
#![tactic(auto)]

ghost use Rattle.std.specs.Prelude.{◌≡◌};
ghost use Rattle.rules.specs.Claim.{status_number};
ghost use Rattle.rules.specs.Refused.{answered, answered_at};
ghost use Rattle.state.specs.State.{state};
ghost use Rattle.calls.specs.Calls as Calls;
ghost use Rattle.portal.specs.Numbers.{kind_of, bits_of, told_as};

use rules::{CallRefusal, Report, Status};
use value::{Value, coding};

// A load's answer: its number, and the place of a bad image.
#[repr(C)]
#[derive(Clone, Copy)]
pub struct Lodged {
    pub number: u64,
    pub place: u64,
}

// A report's answer: its number, then the report.
#[repr(C)]
#[derive(Clone, Copy)]
pub struct Told {
    pub number: u32,
    pub status: u32,
    pub refusal: u32,
    pub position: u32,
    pub used: u32,
    pub live: u32,
    pub steps: u32,
    pub kind: u32,
    pub word: u64,
}

// The number that a call answers: 0 where it is not refused.
fn number_of<T: Copy>(answer: Result<T, CallRefusal>) -> u8
    ensures { result ≡ answered answer }
{
    match answer {
        Ok(_) => 0,
        Err(refusal) => u8::from(refusal),
    }
}

// The place of a bad image, else 0.
fn place_of<T: Copy>(answer: Result<T, CallRefusal>) -> u64
    ensures { result ≡ answered_at answer }
{
    match answer {
        Ok(_) => 0,
        Err(refusal) => refusal.place() as u64,
    }
}

#[tactic(auto, unfolding(rules::specs::Claim::status_number))]
fn status_number(s: Status) -> u32
    ensures { result ≡ status_number s }
{
    match s {
        Status::Vacant => 0,
        Status::Running => 1,
        Status::Finished => 2,
        Status::Deadlocked => 3,
        Status::Refused => 4,
    }
}

#[tactic(auto, unfolding(crate::specs::Numbers::kind_of, value::specs::Coding::encoded))]
fn kind_of(result_of: Option<Value>) -> u32
    ensures { result ≡ kind_of result_of }
{
    match result_of {
        None => 0,
        Some(v) => u32::from(coding::encode(v).tag),
    }
}

#[tactic(auto, unfolding(crate::specs::Numbers::bits_of, value::specs::Coding::encoded))]
fn bits_of(result_of: Option<Value>) -> u64
    ensures { result ≡ bits_of result_of }
{
    match result_of {
        None => 0,
        Some(v) => coding::encode(v).word,
    }
}

#[tactic(auto, unfolding(crate::specs::Numbers::told_as))]
fn told_as(answer: Result<Report, CallRefusal>) -> Told
    ensures { result ≡ told_as (Calls.shown (answered answer) (Calls.reported answer)) }
{
    let report = reporting::reported(answer);
    Told {
        number: u32::from(number_of(answer)),
        status: status_number(report.status),
        refusal: u32::from(report.refusal),
        position: u32::from(report.position),
        used: report.used,
        live: report.live,
        steps: report.steps,
        kind: kind_of(report.result),
        word: bits_of(report.result),
    }
}

#[unsafe(no_mangle)]
pub extern "C" fn lapisgable_open(
    book: &mut [u32],
    tags: &mut [u16],
    words: &mut [u64],
    heads: &mut [u64],
    accs: &mut [u64],
    images: &mut [u8],
    shares: &[u32],
) -> u32
    ensures { Calls.open_call (state book.old tags.old words.old heads.old accs.old images.old) shares.now ≡ Calls.moved result (state book.new tags.new words.new heads.new accs.new images.new) }
{
    u32::from(number_of(opening::open(book, tags, words, heads, accs, images, shares)))
}

#[unsafe(no_mangle)]
pub extern "C" fn lapisgable_load(
    book: &mut [u32],
    tags: &mut [u16],
    words: &mut [u64],
    heads: &mut [u64],
    accs: &mut [u64],
    images: &mut [u8],
    seat: u32,
    image: &[u8],
) -> Lodged
    ensures { Calls.load_call (state book.old tags.old words.old heads.old accs.old images.old) seat image.now ≡ Calls.loaded result.number result.place (state book.new tags.new words.new heads.new accs.new images.new) }
{
    let answer = loading::load(book, tags, words, heads, accs, images, seat, image);
    Lodged {
        number: u64::from(number_of(answer)),
        place: place_of(answer),
    }
}

#[unsafe(no_mangle)]
pub extern "C" fn lapisgable_run(
    book: &mut [u32],
    tags: &mut [u16],
    words: &mut [u64],
    heads: &mut [u64],
    accs: &mut [u64],
    images: &[u8],
    schedule: &[u8],
    answers: &mut [u8],
) -> u32
    ensures { Calls.run_call (state book.old tags.old words.old heads.old accs.old images.now) schedule.now answers.old ≡ Calls.ran result (state book.new tags.new words.new heads.new accs.new images.now) answers.new }
{
    u32::from(number_of(running::run(book, tags, words, heads, accs, images, schedule, answers)))
}

#[unsafe(no_mangle)]
pub extern "C" fn lapisgable_report(
    book: &[u32],
    tags: &[u16],
    words: &[u64],
    heads: &[u64],
    accs: &[u64],
    images: &[u8],
    seat: u32,
) -> Told
    ensures { result ≡ told_as (Calls.report_call (state book.now tags.now words.now heads.now accs.now images.now) seat) }
{
    told_as(reporting::report(book, tags, words, heads, accs, images, seat))
}

#[unsafe(no_mangle)]
pub extern "C" fn lapisgable_clear(
    book: &mut [u32],
    tags: &mut [u16],
    words: &mut [u64],
    heads: &mut [u64],
    accs: &mut [u64],
    images: &mut [u8],
    seat: u32,
) -> u32
    ensures { Calls.clear_call (state book.old tags.old words.old heads.old accs.old images.old) seat ≡ Calls.moved result (state book.new tags.new words.new heads.new accs.new images.new) }
{
    u32::from(number_of(clearing::clear(book, tags, words, heads, accs, images, seat)))
}
