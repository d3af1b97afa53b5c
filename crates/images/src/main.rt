// Small images, worked out by hand from document 01, read by the code.
#![tactic(auto)]

use image::reader;
use image::reader::{Fault, Layout};
use lines::line;
use std::io;
use std::io::Write;

type Read = Result<Layout, Fault>;

fn bad(place: usize) -> Read {
    Err(Fault::BadAt(place))
}

fn good(slots: u8, inputs: usize, code: usize) -> Read {
    Ok(Layout {
        slots,
        inputs,
        code,
    })
}

// Each case has a name, an image, and what the reader says of it.
fn run_cases<W: Write>(out: &mut W, cases: &[(&str, &[u8], Read)]) -> io::Result<()> {
    for &(name, image, wanted) in cases {
        line(out, name.as_bytes(), reader::read(image) == wanted)?;
    }
    Ok(())
}

fn first_record<W: Write>(out: &mut W) -> io::Result<()> {
    run_cases(
        out,
        &[
            ("empty", b"", bad(0)),
            ("a lone 80", b"\x80", bad(0)),
            ("no slots", b"\x80\x00\x85\x00", bad(0)),
            ("no 80 first", b"\x85\x00", bad(0)),
            ("code first", b"\x00", bad(0)),
            ("input first", b"\x84\x80\x01\x85\x00", bad(0)),
        ],
    )
}

fn ends_early<W: Write>(out: &mut W) -> io::Result<()> {
    run_cases(
        out,
        &[
            ("ends behind 80", b"\x80\x01", bad(2)),
            ("ends behind an input", b"\x80\x02\x84", bad(3)),
            ("no code", b"\x80\x01\x85", bad(3)),
            (
                "85 in an input",
                b"\x80\x02\x81\x00\x00\x00\x00\x00\x00\x00\x85",
                bad(11),
            ),
        ],
    )
}

fn strange_inputs<W: Write>(out: &mut W) -> io::Result<()> {
    run_cases(
        out,
        &[
            ("unknown input", b"\x80\x02\x86\x85\x00", bad(2)),
            ("instruction as input", b"\x80\x02\x04\x85\x00", bad(2)),
            ("80 out of turn", b"\x80\x02\x80\x01\x85\x00", bad(2)),
        ],
    )
}

fn cut_inputs<W: Write>(out: &mut W) -> io::Result<()> {
    run_cases(
        out,
        &[
            (
                "integer input cut",
                b"\x80\x02\x81\x00\x00\x00\x00\x00\x00\x00",
                bad(2),
            ),
            (
                "float input cut",
                b"\x80\x02\x82\x00\x00\x00\x00\x00\x00\x00",
                bad(2),
            ),
            ("boolean input cut", b"\x80\x02\x83", bad(2)),
            ("second input cut", b"\x80\x03\x84\x83", bad(3)),
        ],
    )
}

fn broken_inputs<W: Write>(out: &mut W) -> io::Result<()> {
    run_cases(
        out,
        &[
            (
                "infinite input",
                b"\x80\x02\x82\x00\x00\x00\x00\x00\x00\xf0\x7f\x85\x00",
                bad(2),
            ),
            (
                "input not a number",
                b"\x80\x02\x82\x00\x00\x00\x00\x00\x00\xf8\x7f\x85\x00",
                bad(2),
            ),
            ("boolean input 2", b"\x80\x02\x83\x02\x85\x00", bad(2)),
        ],
    )
}

fn input_counts<W: Write>(out: &mut W) -> io::Result<()> {
    run_cases(
        out,
        &[
            ("one input too many", b"\x80\x01\x84\x85\x00", bad(2)),
            ("second input too many", b"\x80\x02\x84\x84\x85\x00", bad(3)),
            (
                "one input fewer than slots",
                b"\x80\x03\x84\x84\x85\x00",
                good(3, 2, 5),
            ),
            ("fewer inputs", b"\x80\xff\x83\x01\x85\x00", good(255, 1, 5)),
        ],
    )
}

fn strange_kinds<W: Write>(out: &mut W) -> io::Result<()> {
    run_cases(
        out,
        &[
            ("unknown kind 1C", b"\x80\x01\x85\x1c", bad(3)),
            ("unknown kind FF", b"\x80\x01\x85\x04\xff\x00", bad(4)),
            (
                "81 in the code",
                b"\x80\x01\x85\x81\x00\x00\x00\x00\x00\x00\x00\x00\x00",
                bad(3),
            ),
            ("85 in the code", b"\x80\x01\x85\x85\x00", bad(3)),
        ],
    )
}

fn cut_operands<W: Write>(out: &mut W) -> io::Result<()> {
    run_cases(
        out,
        &[
            (
                "INT cut",
                b"\x80\x01\x85\x01\x00\x00\x00\x00\x00\x00\x00",
                bad(3),
            ),
            (
                "FLOAT cut",
                b"\x80\x01\x85\x02\x00\x00\x00\x00\x00\x00\x00",
                bad(3),
            ),
            ("BOOL cut", b"\x80\x01\x85\x03", bad(3)),
            ("TOUCH cut", b"\x80\x01\x85\x05", bad(3)),
            ("ISTORE cut", b"\x80\x01\x85\x0b\x00", bad(3)),
        ],
    )
}

fn cut_bodies<W: Write>(out: &mut W) -> io::Result<()> {
    run_cases(
        out,
        &[
            ("FRAME cut", b"\x80\x01\x85\x0e", bad(3)),
            ("ADD cut", b"\x80\x01\x85\x10\x00", bad(3)),
            ("SWITCH cut", b"\x80\x01\x85\x17\x00\x00\x00\x00", bad(3)),
            ("SPAWN cut", b"\x80\x01\x85\x18\x00", bad(3)),
            ("APPLY cut", b"\x80\x01\x85\x19\x00\x00", bad(3)),
            ("PUT cut", b"\x80\x01\x85\x00\x1b\x00", bad(4)),
        ],
    )
}

fn broken_operands<W: Write>(out: &mut W) -> io::Result<()> {
    run_cases(
        out,
        &[
            (
                "infinite FLOAT",
                b"\x80\x01\x85\x02\x00\x00\x00\x00\x00\x00\xf0\x7f\x00",
                bad(3),
            ),
            (
                "minus infinite FLOAT",
                b"\x80\x01\x85\x02\x00\x00\x00\x00\x00\x00\xf0\xff\x00",
                bad(3),
            ),
            (
                "FLOAT not a number",
                b"\x80\x01\x85\x02\x00\x00\x00\x00\x00\x00\xf8\x7f\x00",
                bad(3),
            ),
            ("BOOL 2", b"\x80\x01\x85\x03\x02\x00", bad(3)),
            ("FRAME 0", b"\x80\x01\x85\x0e\x00\x00", bad(3)),
        ],
    )
}

fn last_kinds<W: Write>(out: &mut W) -> io::Result<()> {
    run_cases(
        out,
        &[
            ("last is NIL", b"\x80\x01\x85\x04", bad(3)),
            ("last is STORE", b"\x80\x01\x85\x04\x07\x00", bad(4)),
            ("last is SPAWN", b"\x80\x01\x85\x00\x18\x00\x00", bad(4)),
            (
                "last is SWITCH",
                b"\x80\x01\x85\x17\x00\x00\x00\x00\x00",
                good(1, 0, 3),
            ),
        ],
    )
}

fn targets<W: Write>(out: &mut W) -> io::Result<()> {
    run_cases(
        out,
        &[
            (
                "first target of SWITCH",
                b"\x80\x01\x85\x17\x00\x01\x00\x00\x00",
                bad(3),
            ),
            (
                "second target of SWITCH",
                b"\x80\x01\x85\x17\x00\x00\x00\x01\x00",
                bad(3),
            ),
            (
                "target of SPAWN in its body",
                b"\x80\x01\x85\x18\x01\x00\x00",
                bad(3),
            ),
            (
                "target of APPLY in its body",
                b"\x80\x01\x85\x19\x02\x00\x00\x00",
                bad(3),
            ),
            ("target at the end", b"\x80\x01\x85\x18\x04\x00\x00", bad(3)),
            (
                "target past the end",
                b"\x80\x01\x85\x18\xff\xff\x00",
                bad(3),
            ),
        ],
    )
}

fn first_faults<W: Write>(out: &mut W) -> io::Result<()> {
    run_cases(
        out,
        &[
            (
                "target by its high byte",
                b"\x80\x01\x85\x18\x00\x01\x00",
                bad(3),
            ),
            (
                "second instruction aims badly",
                b"\x80\x01\x85\x04\x18\x02\x00\x00",
                bad(4),
            ),
            (
                "wrong last kind before a bad target",
                b"\x80\x01\x85\x18\x01\x00\x04",
                bad(6),
            ),
            (
                "unknown kind before a bad target",
                b"\x80\x01\x85\x18\x01\x00\x1c",
                bad(6),
            ),
            (
                "SPAWN of the last",
                b"\x80\x01\x85\x18\x03\x00\x00",
                good(1, 0, 3),
            ),
        ],
    )
}

fn constants<W: Write>(out: &mut W) -> io::Result<()> {
    run_cases(
        out,
        &[
            ("END", b"\x80\x01\x85\x00\x00", good(1, 0, 3)),
            (
                "INT",
                b"\x80\x01\x85\x01\xff\xff\xff\xff\xff\xff\xff\xff\x00",
                good(1, 0, 3),
            ),
            (
                "FLOAT",
                b"\x80\x01\x85\x02\xff\xff\xff\xff\xff\xff\xef\x7f\x00",
                good(1, 0, 3),
            ),
            ("BOOL", b"\x80\x01\x85\x03\x01\x00", good(1, 0, 3)),
            ("NIL", b"\x80\x01\x85\x04\x00", good(1, 0, 3)),
        ],
    )
}

fn slots<W: Write>(out: &mut W) -> io::Result<()> {
    run_cases(
        out,
        &[
            ("TOUCH", b"\x80\x01\x85\x05\xff\x00", good(1, 0, 3)),
            ("LOAD", b"\x80\x01\x85\x06\x00\x00", good(1, 0, 3)),
            ("STORE", b"\x80\x01\x85\x07\x00\x00", good(1, 0, 3)),
        ],
    )
}

fn cells<W: Write>(out: &mut W) -> io::Result<()> {
    run_cases(
        out,
        &[
            ("IALLOC", b"\x80\x01\x85\x08\x01\x00", good(1, 0, 3)),
            ("MALLOC", b"\x80\x01\x85\x09\x01\x00", good(1, 0, 3)),
            ("IFETCH", b"\x80\x01\x85\x0a\x00\x00", good(1, 0, 3)),
            ("ISTORE", b"\x80\x01\x85\x0b\x00\x01\x00", good(1, 0, 3)),
            ("MFETCH", b"\x80\x01\x85\x0c\x00\x00", good(1, 0, 3)),
            ("MSTORE", b"\x80\x01\x85\x0d\x00\x01\x00", good(1, 0, 3)),
        ],
    )
}

fn frames<W: Write>(out: &mut W) -> io::Result<()> {
    run_cases(
        out,
        &[
            ("FRAME", b"\x80\x01\x85\x0e\xff\x00", good(1, 0, 3)),
            ("SELF", b"\x80\x01\x85\x0f\x00", good(1, 0, 3)),
        ],
    )
}

fn arithmetic<W: Write>(out: &mut W) -> io::Result<()> {
    run_cases(
        out,
        &[
            ("ADD", b"\x80\x01\x85\x10\x01\x02\x00", good(1, 0, 3)),
            ("SUB", b"\x80\x01\x85\x11\x01\x02\x00", good(1, 0, 3)),
            ("MUL", b"\x80\x01\x85\x12\x01\x02\x00", good(1, 0, 3)),
            ("DIV", b"\x80\x01\x85\x13\x01\x02\x00", good(1, 0, 3)),
            ("LESS", b"\x80\x01\x85\x14\x01\x02\x00", good(1, 0, 3)),
            ("EQUAL", b"\x80\x01\x85\x15\x01\x02\x00", good(1, 0, 3)),
        ],
    )
}

fn flows<W: Write>(out: &mut W) -> io::Result<()> {
    run_cases(
        out,
        &[
            ("OFFSET", b"\x80\x01\x85\x16\x01\x02\x00", good(1, 0, 3)),
            (
                "SWITCH",
                b"\x80\x01\x85\x17\x00\x00\x00\x06\x00\x00",
                good(1, 0, 3),
            ),
            ("SPAWN", b"\x80\x01\x85\x18\x03\x00\x00", good(1, 0, 3)),
            ("APPLY", b"\x80\x01\x85\x19\x04\x00\x00\x00", good(1, 0, 3)),
            ("GET", b"\x80\x01\x85\x1a\x00\xff\x00", good(1, 0, 3)),
            ("PUT", b"\x80\x01\x85\x1b\x00\xff\x00", good(1, 0, 3)),
        ],
    )
}

fn all_kinds<W: Write>(out: &mut W) -> io::Result<()> {
    run_cases(
        out,
        &[(
            "all kinds",
            b"\x80\x01\x85\x00\x01\xff\xff\xff\xff\xff\xff\xff\xff\x02\xff\xff\xff\xff\xff\xff\xef\x7f\x03\x01\x04\x05\xff\x06\x00\x07\x00\x08\x01\x09\x01\x0a\x00\x0b\x00\x01\x0c\x00\x0d\x00\x01\x0e\xff\x0f\x10\x01\x02\x11\x01\x02\x12\x01\x02\x13\x01\x02\x14\x01\x02\x15\x01\x02\x16\x01\x02\x17\x00\x00\x00\x01\x00\x18\x0a\x00\x19\x13\x00\x00\x1a\x00\xff\x1b\x00\xff\x00",
            good(1, 0, 3),
        )],
    )
}

fn lengths<W: Write>(out: &mut W) -> io::Result<()> {
    let mut image = [0u8; 4097];
    image[0] = 0x80;
    image[1] = 1;
    image[2] = 0x85;
    run_cases(
        out,
        &[
            ("4096 bytes", &image[..4096], good(1, 0, 3)),
            ("4097 bytes", &image, Err(Fault::TooLong)),
        ],
    )
}

fn main(rt: HostRuntime) -> io::Result<()> {
    let mut out = rt.stdout();
    first_record(&mut out)?;
    ends_early(&mut out)?;
    strange_inputs(&mut out)?;
    cut_inputs(&mut out)?;
    broken_inputs(&mut out)?;
    input_counts(&mut out)?;
    strange_kinds(&mut out)?;
    cut_operands(&mut out)?;
    cut_bodies(&mut out)?;
    broken_operands(&mut out)?;
    last_kinds(&mut out)?;
    targets(&mut out)?;
    first_faults(&mut out)?;
    constants(&mut out)?;
    slots(&mut out)?;
    cells(&mut out)?;
    frames(&mut out)?;
    arithmetic(&mut out)?;
    flows(&mut out)?;
    all_kinds(&mut out)?;
    lengths(&mut out)
}
