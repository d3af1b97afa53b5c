// One seat's parts, worked out by hand from docs/STATE.md, each damaged by one change: the code refuses them and takes their sound twins.
// Most break one clause of soundness only. A number that several clauses speak of breaks them all: a share, more cells or threads than there is room for,
// a bad image, whose code has no start, and a thread of a vacant seat.
#![tactic(auto)]

use inspection::sound;
use inspection::sound::Seat;
use lent::{overlay, put};
use lines::line;
use std::io;
use std::io::Write;

#[derive(Clone, Copy)]
struct Parts {
    book: [u32; 9],
    tags: [u16; 8],
    words: [u64; 8],
    heads: [u64; 32],
    accs: [u64; 32],
    image: [u8; 4096],
    start: u32,
}

// A number of a part, with its index, or the region's start.
#[derive(Clone, Copy)]
enum Damage {
    Book(usize, u32),
    Tag(usize, u16),
    Word(usize, u64),
    Head(usize, u64),
    Acc(usize, u64),
    Byte(usize, u8),
    Start(u32),
}

use Damage::{Acc, Book, Byte, Head, Start, Tag, Word};

impl Parts {
    fn seat(&self) -> Seat {
        Seat {
            book: &self.book,
            tags: &self.tags,
            words: &self.words,
            heads: &self.heads,
            accs: &self.accs,
            image: &self.image,
        }
    }

    fn stands(&self) -> bool {
        sound::seat_sound(self.seat(), self.start)
    }

    fn damaged(mut self, damage: Damage) -> Parts {
        match damage {
            Damage::Book(i, n) => put(&mut self.book, i, n),
            Damage::Tag(i, n) => put(&mut self.tags, i, n),
            Damage::Word(i, n) => put(&mut self.words, i, n),
            Damage::Head(i, n) => put(&mut self.heads, i, n),
            Damage::Acc(i, n) => put(&mut self.accs, i, n),
            Damage::Byte(i, n) => put(&mut self.image, i, n),
            Damage::Start(n) => self.start = n,
        }
        self
    }
}

// Each case has a name, a twin, and its damage: the twin stands, and the damaged one does not.
fn run_cases<W: Write>(out: &mut W, cases: &[(&str, &Parts, Damage)]) -> io::Result<()> {
    for &(name, twin, damage) in cases {
        let damaged = twin.damaged(damage);
        line(out, name.as_bytes(), twin.stands() && !damaged.stands())?;
    }
    Ok(())
}

// Place, position, frame and the accumulator's tag.
fn head(place: u16, position: u16, frame: u16, tag: u16) -> u64 {
    u64::from(place)
        + 0x1_0000 * u64::from(position)
        + 0x1_0000_0000 * u64::from(frame)
        + 0x1_0000_0000_0000 * u64::from(tag)
}

fn vacant() -> Parts {
    Parts {
        book: [8, 4, 0, 0, 0, 0, 0, 0, 0],
        tags: [0; 8],
        words: [0; 8],
        heads: [0; 32],
        accs: [0; 32],
        image: [0; 4096],
        start: 0,
    }
}

fn with_image(mut s: Parts, bytes: &[u8]) -> Parts {
    overlay(&mut s.image, bytes);
    s
}

// 80 03, inputs 5 and 7, 85, ADD 1 2, STORE 0, END.
const W1: [u8; 27] = [
    0x80, 0x03, 0x81, 5, 0, 0, 0, 0, 0, 0, 0, 0x81, 7, 0, 0, 0, 0, 0, 0, 0, 0x85, 0x10, 1, 2, 0x07,
    0, 0,
];

// W1 after its first step: cells empty, 5, 7; one thread at STORE 0 with 12.
fn added() -> Parts {
    let mut s = with_image(vacant(), &W1);
    s.book = [8, 4, 27, 21, 3, 1, 0, 0, 1];
    s.tags[1] = 1;
    s.words[1] = 5;
    s.tags[2] = 1;
    s.words[2] = 7;
    s.heads[0] = head(1, 3, 0, 1);
    s.accs[0] = 12;
    s
}

// W3 after its step, its region starting at 5: a thread that waits on the one cell, which is empty.
fn waiting() -> Parts {
    let mut s = with_image(vacant(), b"\x80\x01\x85\x05\x00\x00");
    s.book = [8, 4, 6, 3, 1, 1, 0, 0, 1];
    s.heads[0] = head(7, 2, 5, 4);
    s.start = 5;
    s
}

// W4 at its end: cell 0 holds nil, and the thread at 3 was refused with 5.
fn refused() -> Parts {
    let mut s = with_image(vacant(), b"\x80\x01\x85\x04\x07\x00\x07\x00\x00");
    s.book = [8, 4, 9, 3, 1, 1, 5, 0, 3];
    s.tags[0] = 4;
    s.heads[0] = head(1, 3, 0, 4);
    s
}

// W7 at its end, with a ready thread before the one that waits: cells location 2, integer 1, an empty M-cell.
fn taking() -> Parts {
    let mut s = with_image(
        vacant(),
        b"\x80\x02\x81\x01\x00\x00\x00\x00\x00\x00\x00\x85\x09\x01\x07\x00\x0C\x00\x00",
    );
    s.book = [8, 4, 19, 12, 3, 2, 0, 0, 3];
    s.tags = [5, 1, 8, 0, 0, 0, 0, 0];
    s.words = [2, 1, 0, 0, 0, 0, 0, 0];
    s.heads[0] = head(1, 6, 0, 3);
    s.accs[0] = 1;
    s.heads[1] = head(4, 4, 0, 4);
    s
}

// The same, its first thread refused.
fn taking_refused() -> Parts {
    let mut s = taking();
    s.book[6] = 1;
    s
}

// A claim whose one cell is empty, and no thread left.
fn spent() -> Parts {
    let mut s = with_image(vacant(), b"\x80\x01\x85\x00");
    s.book = [8, 4, 4, 3, 1, 0, 0, 0, 1];
    s
}

// A claim of one cell that holds 1.5, an M-cell, and no thread left.
fn finished() -> Parts {
    let mut s = with_image(vacant(), b"\x80\x01\x85\x00");
    s.book = [8, 4, 4, 3, 1, 0, 0, 0, 9];
    s.tags[0] = 10;
    s.words[0] = 0x3FF8_0000_0000_0000;
    s
}

// One part of a sound seat is cut short by a number.
fn lengths<W: Write>(out: &mut W) -> io::Result<()> {
    let parts = added();
    line(out, b"each part as long as it should be", parts.stands())?;
    let seat = parts.seat();
    let book = &parts.book[..8];
    let tags = &parts.tags[..7];
    let words = &parts.words[..7];
    let heads = &parts.heads[..31];
    let accs = &parts.accs[..31];
    let image = &parts.image[..4095];
    let short = [
        ("book too short", Seat { book, ..seat }),
        ("tags too short", Seat { tags, ..seat }),
        ("words too short", Seat { words, ..seat }),
        ("heads too short", Seat { heads, ..seat }),
        ("accumulators too short", Seat { accs, ..seat }),
        ("image part too short", Seat { image, ..seat }),
    ];
    for (name, cut) in short {
        let sound = sound::seat_sound(cut, parts.start);
        line(out, name.as_bytes(), !sound)?;
    }
    Ok(())
}

fn books<W: Write>(out: &mut W) -> io::Result<()> {
    let s = &added();
    run_cases(
        out,
        &[
            ("share below the cells lent", s, Book(0, 7)),
            ("share above the cells lent", s, Book(0, 9)),
            ("more threads than the share", s, Book(1, 0)),
            ("image cut short", s, Book(2, 26)),
            ("image over the limit", s, Book(2, 4097)),
            ("code starts too early", s, Book(3, 20)),
            ("code starts too late", s, Book(3, 24)),
            ("fewer cells than slots", &spent(), Book(4, 0)),
            ("more cells than the share", s, Book(4, 9)),
            ("a thread not counted", s, Book(5, 0)),
            ("a thread too many", s, Book(5, 2)),
            ("more threads than records", s, Book(5, 33)),
        ],
    )
}

fn cells<W: Write>(out: &mut W) -> io::Result<()> {
    let s = &added();
    let t = &taking();
    let f = &finished();
    run_cases(
        out,
        &[
            ("value tag 6", s, Tag(1, 6)),
            ("value tag 7", s, Tag(1, 7)),
            ("a bit above the kind", s, Tag(0, 16)),
            ("a bit above a value", s, Tag(2, 17)),
            ("boolean 5", s, Tag(1, 3)),
            ("nil with a word", s, Tag(1, 4)),
            ("empty with a word", s, Tag(1, 0)),
            ("word of an empty cell", s, Word(0, 1)),
            ("tag of an unmade cell", s, Tag(3, 8)),
            ("tag of the last unmade cell", s, Tag(7, 1)),
            ("word of an unmade cell", s, Word(3, 1)),
            ("word of the last unmade cell", s, Word(7, 1)),
            ("location over 65,535", t, Word(0, 65536)),
            ("word of an empty M-cell", t, Word(2, 1)),
            ("infinite float", f, Word(0, 0x7FF0_0000_0000_0000)),
            ("float that is no number", f, Word(0, 0xFFF8_0000_0000_0001)),
        ],
    )
}

fn threads<W: Write>(out: &mut W) -> io::Result<()> {
    let s = &added();
    run_cases(
        out,
        &[
            ("place 0", s, Head(0, head(0, 3, 0, 1))),
            ("waits on a full cell", s, Head(0, head(3, 3, 0, 1))),
            ("waits on an unmade cell", s, Head(0, head(5, 3, 0, 1))),
            ("waits past the region", s, Head(0, head(10, 3, 0, 1))),
            ("position inside a body", s, Head(0, head(1, 4, 0, 1))),
            ("position past the code", s, Head(0, head(1, 6, 0, 1))),
            ("no accumulator", s, Head(0, head(1, 3, 0, 0))),
            ("accumulator's tag 6", s, Head(0, head(1, 3, 0, 6))),
            (
                "accumulator's tag with the kind's bit",
                s,
                Head(0, head(1, 3, 0, 9)),
            ),
            ("accumulator nil with a word", s, Head(0, head(1, 3, 0, 4))),
            ("accumulator's word of nil", &waiting(), Acc(0, 1)),
            ("accumulator boolean 2", &taking(), Acc(0, 2)),
            ("head of a free record", s, Head(1, head(1, 3, 0, 4))),
            ("head of the last record", s, Head(31, 1)),
            ("word of a free record", s, Acc(1, 1)),
            ("word of the last record", s, Acc(31, 1)),
            ("waits before the region", &waiting(), Start(6)),
        ],
    )
}

fn images<W: Write>(out: &mut W) -> io::Result<()> {
    let s = &added();
    run_cases(
        out,
        &[
            ("no 80 first", s, Byte(0, 0x81)),
            ("no slots", s, Byte(1, 0)),
            ("an input too many", s, Byte(1, 2)),
            ("an unknown kind", s, Byte(21, 0x1C)),
            ("last instruction of the wrong kind", s, Byte(26, 4)),
            ("byte behind the image", s, Byte(27, 1)),
            ("last byte of the part", s, Byte(4095, 1)),
        ],
    )
}

fn refusals<W: Write>(out: &mut W) -> io::Result<()> {
    let s = &refused();
    run_cases(
        out,
        &[
            ("refusal 10", s, Book(6, 10)),
            ("refusal 256", s, Book(6, 256)),
            ("refused thread that is not there", s, Book(7, 1)),
            ("refused thread far away", s, Book(7, 65536)),
            ("refused thread without a refusal", &taking(), Book(7, 1)),
            ("refused thread that waits", &taking_refused(), Book(7, 1)),
        ],
    )
}

fn vacancies<W: Write>(out: &mut W) -> io::Result<()> {
    let s = &vacant();
    run_cases(
        out,
        &[
            ("vacant with a code", s, Book(3, 1)),
            ("vacant with a cell", s, Book(4, 1)),
            ("vacant with a thread", s, Book(5, 1)),
            ("vacant with a refusal", s, Book(6, 1)),
            ("vacant with a refused thread", s, Book(7, 1)),
            ("vacant with a step", s, Book(8, 1)),
            ("vacant with a tag", s, Tag(0, 8)),
            ("vacant with a word", s, Word(7, 1)),
            ("vacant with a head", s, Head(0, 1)),
            ("vacant with an accumulator", s, Acc(31, 1)),
            ("vacant with a byte", s, Byte(9, 1)),
        ],
    )
}

fn main(rt: HostRuntime) -> io::Result<()> {
    let mut out = rt.stdout();
    lengths(&mut out)?;
    books(&mut out)?;
    cells(&mut out)?;
    threads(&mut out)?;
    images(&mut out)?;
    refusals(&mut out)?;
    vacancies(&mut out)?;
    Ok(())
}
