// The worked sheets of document 01, each run through the public calls and compared with every fact that 01 writes of it.
#![tactic(auto)]

use rules::{CallRefusal, Report, Status};
use value::{Value, coding};

// What the calls answered: the load, the run's answer buffer, which held 255 before, the report, and the first three thread records.
#[derive(Clone, Copy)]
pub struct Seen {
    pub loaded: Result<(), CallRefusal>,
    pub answers: [u8; 8],
    pub report: Report,
    pub heads: [u64; 3],
}

// Opens, loads seat 1, if there is one, loads seat 0, runs and reports on seat 0. The six buffers go by their first letters.
// Only the loads may be refused.
fn played(
    shares: &[u32],
    neighbour: &[u8],
    image: &[u8],
    schedule: &[u8],
) -> Result<Seen, CallRefusal> {
    let mut b = [0u32; 72];
    let mut t = [0u16; 2048];
    let mut w = [0u64; 2048];
    let mut h = [0u64; 256];
    let mut a = [0u64; 256];
    let mut i = [0u8; 32768];
    let mut answers = [255u8; 8];
    opening::open(&mut b, &mut t, &mut w, &mut h, &mut a, &mut i, shares)?;
    let _ = loading::load(&mut b, &mut t, &mut w, &mut h, &mut a, &mut i, 1, neighbour);
    let loaded = loading::load(&mut b, &mut t, &mut w, &mut h, &mut a, &mut i, 0, image);
    running::run(
        &mut b,
        &mut t,
        &mut w,
        &mut h,
        &mut a,
        &i,
        schedule,
        &mut answers,
    )?;
    let report = reporting::report(&b, &t, &w, &h, &a, &i, 0)?;
    Ok(Seen {
        loaded,
        answers,
        report,
        heads: [h[0], h[1], h[2]],
    })
}

// The report that is wanted, the result bit for bit, which == of floats does not say.
fn says(r: Report, want: Report) -> bool {
    r == want && r.result.map(coding::encode) == want.result.map(coding::encode)
}

// Loaded and run, with these answers and this report.
fn agrees(seen: Result<Seen, CallRefusal>, answers: [u8; 8], want: Report) -> bool {
    seen.is_ok_and(|s| s.loaded == Ok(()) && s.answers == answers && says(s.report, want))
}

// "Seat 0, share 8 cells and 4 threads"
fn alone(image: &[u8], schedule: &[u8], answers: [u8; 8], want: Report) -> bool {
    agrees(played(&[8, 4], b"", image, schedule), answers, want)
}

// "Answers 0 0 1; finished, integer 12, 3 steps." The sum is the caller's, so that a wrong one can be tried.
pub fn w1(sum: i64) -> bool {
    let want = Report {
        status: Status::Finished,
        refusal: 0,
        position: 0,
        used: 3,
        live: 0,
        steps: 3,
        result: Some(Value::Integer(sum)),
    };
    alone(
        b"\x80\x03\x81\x05\x00\x00\x00\x00\x00\x00\x00\x81\x07\x00\x00\x00\x00\x00\x00\x00\x85\x10\x01\x02\x07\x00\x00",
        b"\x00\x00\x00\x00\x00\x00",
        [0, 0, 1, 255, 255, 255, 255, 255],
        want,
    )
}

// "Answers 0 0 0 0 3; refused 1 at position 8, whether seat 1 is vacant or full."
pub fn w2() -> bool {
    let want = Report {
        status: Status::Refused,
        refusal: 1,
        position: 8,
        used: 3,
        live: 1,
        steps: 5,
        result: Some(Value::Location(4)),
    };
    let shares = [4, 4, 4, 4];
    let image =
        b"\x80\x03\x81\x04\x00\x00\x00\x00\x00\x00\x00\x85\x0F\x07\x02\x16\x02\x01\x07\x00\x0A\x00\x00";
    let schedule = b"\x00\x00\x00\x00\x00\x00\x00\x00\x00\x00";
    let answers = [0, 0, 0, 0, 3, 255, 255, 255];
    let vacant = played(&shares, b"", image, schedule);
    let full = played(&shares, b"\x80\x04\x84\x84\x84\x85\x00", image, schedule);
    agrees(vacant, answers, want) && agrees(full, answers, want)
}

// "Answer 2; deadlocked; another entry answers 5."
pub fn w3() -> bool {
    let want = Report {
        status: Status::Deadlocked,
        refusal: 0,
        position: 0,
        used: 1,
        live: 1,
        steps: 1,
        result: None,
    };
    alone(
        b"\x80\x01\x85\x05\x00\x00",
        b"\x00\x00\x00\x00",
        [2, 5, 255, 255, 255, 255, 255, 255],
        want,
    )
}

// "Answers 0 0 3; refused 5 at 3."
pub fn w4() -> bool {
    let want = Report {
        status: Status::Refused,
        refusal: 5,
        position: 3,
        used: 1,
        live: 1,
        steps: 3,
        result: Some(Value::Nil),
    };
    alone(
        b"\x80\x01\x85\x04\x07\x00\x07\x00\x00",
        b"\x00\x00\x00\x00\x00\x00",
        [0, 0, 3, 255, 255, 255, 255, 255],
        want,
    )
}

// A head that is ready and at this position.
fn ready_at(head: u64, position: u64) -> bool {
    head % 65536 == 1 && head / 65536 % 65536 == position
}

// The first three threads are ready, at these positions.
fn are_ready(seen: Result<Seen, CallRefusal>, at: [u64; 3]) -> bool {
    seen.is_ok_and(|s| s.heads.iter().zip(&at).all(|(h, p)| ready_at(*h, *p)))
}

// "Answers 0 0 2 2 0 0; ready order by position 9, 15, 12."
pub fn w5() -> bool {
    let want = Report {
        status: Status::Running,
        refusal: 0,
        position: 0,
        used: 2,
        live: 3,
        steps: 6,
        result: None,
    };
    let image = b"\x80\x02\x85\x18\x0A\x00\x18\x0D\x00\x04\x07\x01\x00\x05\x01\x00\x05\x01\x00";
    let seen = played(
        &[8, 4],
        b"",
        image,
        b"\x00\x00\x00\x00\x00\x01\x00\x01\x00\x00\x00\x00",
    );
    are_ready(seen, [9, 15, 12]) && agrees(seen, [0, 0, 2, 2, 0, 0, 255, 255], want)
}

// "Finished, result nil."
pub fn w6() -> bool {
    let want = Report {
        status: Status::Finished,
        refusal: 0,
        position: 0,
        used: 2,
        live: 0,
        steps: 4,
        result: Some(Value::Nil),
    };
    alone(
        b"\x80\x02\x84\x85\x01\x05\x00\x00\x00\x00\x00\x00\x00\x05\x01\x07\x00\x00",
        b"\x00\x00\x00\x00\x00\x00\x00\x00",
        [0, 0, 0, 1, 255, 255, 255, 255],
        want,
    )
}

// "Answers 0 0 2; deadlocked, 3 cells used."
pub fn w7() -> bool {
    let want = Report {
        status: Status::Deadlocked,
        refusal: 0,
        position: 0,
        used: 3,
        live: 1,
        steps: 3,
        result: Some(Value::Location(2)),
    };
    alone(
        b"\x80\x02\x81\x01\x00\x00\x00\x00\x00\x00\x00\x85\x09\x01\x07\x00\x0C\x00\x00",
        b"\x00\x00\x00\x00\x00\x00",
        [0, 0, 2, 255, 255, 255, 255, 255],
        want,
    )
}

// "Input 6; 08 01 00: finished, 8 used."
fn w8_fits() -> bool {
    let want = Report {
        status: Status::Finished,
        refusal: 0,
        position: 0,
        used: 8,
        live: 0,
        steps: 2,
        result: None,
    };
    alone(
        b"\x80\x02\x81\x06\x00\x00\x00\x00\x00\x00\x00\x85\x08\x01\x00",
        b"\x00\x00\x00\x00",
        [0, 1, 255, 255, 255, 255, 255, 255],
        want,
    )
}

// "Input 7: refused 7."
fn w8_over() -> bool {
    let want = Report {
        status: Status::Refused,
        refusal: 7,
        position: 0,
        used: 2,
        live: 1,
        steps: 1,
        result: None,
    };
    alone(
        b"\x80\x02\x81\x07\x00\x00\x00\x00\x00\x00\x00\x85\x08\x01\x00",
        b"\x00\x00",
        [3, 255, 255, 255, 255, 255, 255, 255],
        want,
    )
}

pub fn w8() -> bool {
    w8_fits() && w8_over()
}

// An image turned down at this place: the seat is vacant still.
fn turned_down(image: &[u8], place: usize) -> bool {
    let want = Report {
        status: Status::Vacant,
        refusal: 0,
        position: 0,
        used: 0,
        live: 0,
        steps: 0,
        result: None,
    };
    let turned = Err((23, place));
    played(&[8, 4], b"", image, b"").is_ok_and(|s| {
        s.loaded.map_err(|r| (u8::from(r), r.place())) == turned && says(s.report, want)
    })
}

// "Image 80 01 85 04: refused 23, place 3. Empty image: 23, place 0."
pub fn w9() -> bool {
    turned_down(b"\x80\x01\x85\x04", 3) && turned_down(b"", 0)
}

// Two inputs, an operation on them, STORE 0, END: the result.
fn gives(image: &[u8], res: Value) -> bool {
    let want = Report {
        status: Status::Finished,
        refusal: 0,
        position: 0,
        used: 3,
        live: 0,
        steps: 3,
        result: Some(res),
    };
    alone(
        image,
        b"\x00\x00\x00\x00\x00\x00",
        [0, 0, 1, 255, 255, 255, 255, 255],
        want,
    )
}

// The same, refused with 9.
fn refuses(image: &[u8]) -> bool {
    let want = Report {
        status: Status::Refused,
        refusal: 9,
        position: 0,
        used: 3,
        live: 1,
        steps: 1,
        result: None,
    };
    alone(
        image,
        b"\x00\x00",
        [3, 255, 255, 255, 255, 255, 255, 255],
        want,
    )
}

// "Greatest integer plus 0 is itself; plus 1 is 9. -7 DIV 2 is -3; least DIV -1 is 9."
fn w10_integers() -> bool {
    gives(
        b"\x80\x03\x81\xFF\xFF\xFF\xFF\xFF\xFF\xFF\x7F\x81\x00\x00\x00\x00\x00\x00\x00\x00\x85\x10\x01\x02\x07\x00\x00",
        Value::Integer(9223372036854775807),
    ) && refuses(
        b"\x80\x03\x81\xFF\xFF\xFF\xFF\xFF\xFF\xFF\x7F\x81\x01\x00\x00\x00\x00\x00\x00\x00\x85\x10\x01\x02\x07\x00\x00",
    ) && gives(
        b"\x80\x03\x81\xF9\xFF\xFF\xFF\xFF\xFF\xFF\xFF\x81\x02\x00\x00\x00\x00\x00\x00\x00\x85\x13\x01\x02\x07\x00\x00",
        Value::Integer(-3),
    ) && refuses(
        b"\x80\x03\x81\x00\x00\x00\x00\x00\x00\x00\x80\x81\xFF\xFF\xFF\xFF\xFF\xFF\xFF\xFF\x85\x13\x01\x02\x07\x00\x00",
    )
}

// "0.5 + 0.25 is 0.75; 1.0 DIV 0.0 is 9."
fn w10_floats() -> bool {
    gives(
        b"\x80\x03\x82\x00\x00\x00\x00\x00\x00\xE0\x3F\x82\x00\x00\x00\x00\x00\x00\xD0\x3F\x85\x10\x01\x02\x07\x00\x00",
        Value::Float(0.75),
    ) && refuses(
        b"\x80\x03\x82\x00\x00\x00\x00\x00\x00\xF0\x3F\x82\x00\x00\x00\x00\x00\x00\x00\x00\x85\x13\x01\x02\x07\x00\x00",
    )
}

pub fn w10() -> bool {
    w10_integers() && w10_floats()
}
