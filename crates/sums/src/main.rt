// W10 of document 01 and arithmetic at its ends, run on the code and compared with values that were worked out elsewhere.
#![tactic(auto)]

use lines::line;
use numbers::Operation::{self, Add, Div, Equal, Less, Mul, Sub};
use std::io;
use std::io::Write;
use value::coding::Coded;
use value::refusals::Refusal;
use value::{Value, coding};

// An answer as its tag and word, so that a float is compared bit by bit, or the number of its refusal.
type Told = Result<Coded, u8>;

fn told(answer: Result<Value, Refusal>) -> Told {
    answer.map(coding::encode).map_err(u8::from)
}

fn integer(z: i64) -> Told {
    Ok(coding::encode(Value::Integer(z)))
}

fn float(bits: u64) -> Told {
    Ok(Coded { tag: 2, word: bits })
}

fn boolean(b: bool) -> Told {
    Ok(coding::encode(Value::Boolean(b)))
}

// Each case has a name, an operation on two values, made by `of`, and what it answers.
fn run_cases<W: Write, X: Copy, F: Fn(X) -> Value>(
    out: &mut W,
    of: F,
    cases: &[(&str, Operation, X, X, Told)],
) -> io::Result<()>
    requires { F.IsAlwaysCallable of }
{
    for &(name, op, x, y, wanted) in cases {
        let answer = numbers::operate(op, of(x), of(y));
        line(out, name.as_bytes(), told(answer) == wanted)?;
    }
    Ok(())
}

const GREATEST: i64 = 0x7fff_ffff_ffff_ffff;

const LEAST: i64 = -0x8000_0000_0000_0000;

fn integers<W: Write>(out: &mut W) -> io::Result<()> {
    run_cases(
        out,
        Value::Integer,
        &[
            ("greatest + 0", Add, GREATEST, 0, integer(GREATEST)),
            ("greatest + 1", Add, GREATEST, 1, Err(9)),
            ("least + -1", Add, LEAST, -1, Err(9)),
            ("least + greatest", Add, LEAST, GREATEST, integer(-1)),
            ("0 - least", Sub, 0, LEAST, Err(9)),
            ("-1 - least", Sub, -1, LEAST, integer(GREATEST)),
            ("5 - 7", Sub, 5, 7, integer(-2)),
        ],
    )
}

fn products<W: Write>(out: &mut W) -> io::Result<()> {
    run_cases(
        out,
        Value::Integer,
        &[
            ("least * -1", Mul, LEAST, -1, Err(9)),
            (
                "2^32 * -2^31",
                Mul,
                0x1_0000_0000,
                -0x8000_0000,
                integer(LEAST),
            ),
            ("2^32 * 2^31", Mul, 0x1_0000_0000, 0x8000_0000, Err(9)),
            (
                "3037000499 squared",
                Mul,
                3_037_000_499,
                3_037_000_499,
                integer(9_223_372_030_926_249_001),
            ),
            (
                "3037000500 squared",
                Mul,
                3_037_000_500,
                3_037_000_500,
                Err(9),
            ),
        ],
    )
}

fn quotients<W: Write>(out: &mut W) -> io::Result<()> {
    run_cases(
        out,
        Value::Integer,
        &[
            ("-7 / 2", Div, -7, 2, integer(-3)),
            ("7 / -2", Div, 7, -2, integer(-3)),
            ("-7 / -2", Div, -7, -2, integer(3)),
            ("least / -1", Div, LEAST, -1, Err(9)),
            ("least / 1", Div, LEAST, 1, integer(LEAST)),
            ("1 / 0", Div, 1, 0, Err(9)),
            ("-1 < 0", Less, -1, 0, boolean(true)),
            ("least = greatest", Equal, LEAST, GREATEST, boolean(false)),
        ],
    )
}

// The bits on the right are IEEE 754's for the answer, rounded to nearest, ties to even.
fn reals<W: Write>(out: &mut W) -> io::Result<()> {
    run_cases(
        out,
        Value::Float,
        &[
            ("0.5 + 0.25", Add, 0.5, 0.25, float(0x3fe8_0000_0000_0000)),
            ("0.1 + 0.2", Add, 0.1, 0.2, float(0x3fd3_3333_3333_3334)),
            ("1.0 / 3.0", Div, 1.0, 3.0, float(0x3fd5_5555_5555_5555)),
            ("1.0 / 0.0", Div, 1.0, 0.0, Err(9)),
            ("1.0 / -0.0", Div, 1.0, -0.0, Err(9)),
            ("1e308 * 10.0", Mul, 1.0e308, 10.0, Err(9)),
            (
                "2^-1022 * 0.5",
                Mul,
                2.2250738585072014e-308,
                0.5,
                float(0x8_0000_0000_0000),
            ),
            ("0.0 - 0.0", Sub, 0.0, 0.0, float(0)),
            ("-0.0 = 0.0", Equal, -0.0, 0.0, boolean(true)),
            ("-1.5 < -1.0", Less, -1.5, -1.0, boolean(true)),
        ],
    )
}

fn kinds<W: Write>(out: &mut W) -> io::Result<()> {
    let (yes, no) = (Value::Boolean(true), Value::Boolean(false));
    let place = Value::Location(3);
    run_cases(
        out,
        |v| v,
        &[
            (
                "integer + float",
                Add,
                Value::Integer(1),
                Value::Float(1.0),
                Err(4),
            ),
            ("true = false", Equal, yes, no, boolean(false)),
            ("true < false", Less, yes, no, Err(4)),
            ("nil = nil", Equal, Value::Nil, Value::Nil, Err(4)),
            ("location = location", Equal, place, place, Err(4)),
        ],
    )
}

fn offsets<W: Write>(out: &mut W) -> io::Result<()> {
    let cases = [
        ("65535 offset 0", 65535, 0, Ok(65535)),
        ("65535 offset 1", 65535, 1, Err(1)),
        ("3 offset -3", 3, -3, Ok(0)),
        ("3 offset -4", 3, -4, Err(1)),
        ("0 offset least", 0, LEAST, Err(1)),
    ];
    for (name, l, z, wanted) in cases {
        let place = numbers::integers::offset(l, z).map_err(u8::from);
        line(out, name.as_bytes(), place == wanted)?;
    }
    Ok(())
}

fn main(rt: HostRuntime) -> io::Result<()> {
    let mut out = rt.stdout();
    integers(&mut out)?;
    products(&mut out)?;
    quotients(&mut out)?;
    reals(&mut out)?;
    kinds(&mut out)?;
    offsets(&mut out)
}
