// The types that the rules and the code share. The rules are in specs/.
#![tactic(auto)]

ghost use Rattle.std.specs.Prelude.{◌≡◌};
ghost use Rattle.rules.specs.Turn.{answer_number};
ghost use Rattle.rules.specs.Refused.{call_number, place_of, turned_down};

use image::reader::Fault;
use value::Value;

#[derive(Clone, Copy, Debug, PartialEq, Eq)]
pub enum Kind {
    Icell,
    Mcell,
}

// What a seat finds where it looks for a cell. Its three cases are refused by different numbers; an Option in an Option is no
// plainer.
#[derive(Clone, Copy, Debug, PartialEq)]
pub enum Slot {
    Missing,
    Empty(Kind),
    Full(Kind, Value),
}

#[derive(Clone, Copy, Debug, PartialEq)]
pub struct Thread {
    pub frame: u16,
    pub position: u16,
    pub acc: Value,
}

// What an instruction does; a refusal goes by its number. The first thread is the one that ran, as it goes on or waits; it lies at one place in every case, so
// that it is read back as it was written.
#[derive(Clone, Copy, Debug, PartialEq)]
pub enum Effect {
    Goes(Thread),
    Ends,
    Waits(Thread, usize),
    Fills(Thread, Kind, usize, Value),
    Empties(Thread, usize),
    Makes(Thread, Kind, u16),
    Spawns(Thread, Thread),
    Refuses(u8),
}

// What an entry of a schedule answers.
#[derive(Clone, Copy, Debug, PartialEq, Eq)]
pub enum Answer {
    RanOn,
    Ended,
    Waits,
    Refused,
    NoSuchSeat,
    NotRunning,
    NoSuchPick,
    StepsSpent,
}

impl From<Answer> for u8 {
    ghost from_gives = { λ a n. n ≡ answer_number a };

    fn from(answer: Answer) -> u8 {
        match answer {
            Answer::RanOn => 0,
            Answer::Ended => 1,
            Answer::Waits => 2,
            Answer::Refused => 3,
            Answer::NoSuchSeat => 4,
            Answer::NotRunning => 5,
            Answer::NoSuchPick => 6,
            Answer::StepsSpent => 7,
        }
    }
}

#[derive(Clone, Copy, Debug, PartialEq, Eq)]
pub enum Status {
    Vacant,
    Running,
    Finished,
    Deadlocked,
    Refused,
}

// A report. Its refusal is the number that the book keeps and C is told, 0 where there is none; its result is nothing where
// cell 0 is empty, which is not nil.
#[derive(Clone, Copy, Debug, PartialEq)]
pub struct Report {
    pub status: Status,
    pub refusal: u8,
    pub position: u16,
    pub used: u32,
    pub live: u32,
    pub steps: u32,
    pub result: Option<Value>,
}

// What a call is refused by: it changes no byte. A bad image is refused with its place.
#[derive(Clone, Copy, Debug, PartialEq, Eq)]
pub enum CallRefusal {
    NoSuchSeat,
    NotVacant,
    TooLong,
    BadAt(usize),
    TooManySlots,
    BadShares,
    TooShort,
    Unsound,
    BadSchedule,
    NoRoomForAnswers,
    Vacant,
}

impl From<CallRefusal> for u8 {
    ghost from_gives = { λ r n. n ≡ call_number r };

    fn from(refusal: CallRefusal) -> u8 {
        match refusal {
            CallRefusal::NoSuchSeat => 20,
            CallRefusal::NotVacant => 21,
            CallRefusal::TooLong => 22,
            CallRefusal::BadAt(_) => 23,
            CallRefusal::TooManySlots => 24,
            CallRefusal::BadShares => 30,
            CallRefusal::TooShort => 31,
            CallRefusal::Unsound => 32,
            CallRefusal::BadSchedule => 33,
            CallRefusal::NoRoomForAnswers => 34,
            CallRefusal::Vacant => 35,
        }
    }
}

impl From<Fault> for CallRefusal {
    ghost from_gives = { λ f r. r ≡ turned_down f };

    fn from(fault: Fault) -> CallRefusal {
        match fault {
            Fault::TooLong => CallRefusal::TooLong,
            Fault::BadAt(place) => CallRefusal::BadAt(place),
        }
    }
}

impl CallRefusal {
    // The place of a bad image, else 0.
    pub fn place(self) -> usize
        ensures { result ≡ place_of self }
    {
        match self {
            CallRefusal::BadAt(place) => place,
            _ => 0,
        }
    }
}
