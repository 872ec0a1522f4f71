// What loads become in other forms, plain and clamped.
use crate::refusing::check_refused;
use fixed::Fixed;
use float::{Bf16, F16, F32, F64, Float};
use forms::{Direction, Form, Purchase, Source, convert};
use std::process::Abort;
use std::test::Fail;

const FITS: bool = false;

const OVER: bool = true;

fn check_plain<S: Source, F: Form>(
    rt: &impl Abort,
    source: &S,
    bits: u64,
    form: &F,
    expected: (u64, Direction, bool),
) -> Result<(), Fail> {
    assert_eq!(rt; convert::plain(source, bits, form)?, expected);
    Ok(())
}

fn check_clamped<S: Source, F: Form>(
    rt: &impl Abort,
    source: &S,
    bits: u64,
    form: &F,
    expected: u64,
) -> Result<(), Fail> {
    assert_eq!(rt; convert::clamped(source, bits, form)?, expected);
    Ok(())
}

// The least whole number of 8 bits fits; the number after the greatest does not.
#[test]
fn edges(rt: HostRuntime) -> Result<(), Fail> {
    let single = Float::new(F32);
    let byte = Fixed::new(true, 8, 0)?;
    check_plain(
        &rt,
        &single,
        0xc3000000,
        &byte,
        (0x80, Direction::Equal, FITS),
    )?;
    check_clamped(&rt, &single, 0xc3000000, &byte, 0x80)?;
    check_plain(
        &rt,
        &single,
        0x43000000,
        &byte,
        (0x80, Direction::Equal, OVER),
    )?;
    check_clamped(&rt, &single, 0x43000000, &byte, 0x7f)?;
    let least = 0x8000000000000000;
    let word = Fixed::new(false, 64, 0)?;
    check_plain(
        &rt,
        &Fixed::new(true, 64, 0)?,
        least,
        &word,
        (least, Direction::Equal, OVER),
    )?;
    check_clamped(&rt, &Fixed::new(true, 64, 0)?, least, &word, 0)?;
    // the greatest f64 has no digit among the lowest 64 of M
    let fraction = Fixed::new(true, 64, 64)?;
    let most = 0x7fefffffffffffff;
    check_plain(
        &rt,
        &Float::new(F64),
        most,
        &fraction,
        (0, Direction::Equal, OVER),
    )?;
    check_clamped(&rt, &Float::new(F64), most, &fraction, i64::MAX as u64)
}

// 255.5 is rounded to 256, which no byte shows; what lies just below it is rounded to 255, which one does.
#[test]
fn flag_after_rounding(rt: HostRuntime) -> Result<(), Fail> {
    let single = Float::new(F32);
    let byte = Fixed::new(false, 8, 0)?;
    check_plain(
        &rt,
        &single,
        0x437f8000,
        &byte,
        (0x00, Direction::Above, OVER),
    )?;
    check_clamped(&rt, &single, 0x437f8000, &byte, 0xff)?;
    check_plain(
        &rt,
        &single,
        0x437f7fff,
        &byte,
        (0xff, Direction::Below, FITS),
    )?;
    let half = Float::new(F16);
    check_plain(
        &rt,
        &single,
        0x477ff000,
        &half,
        (0x7c00, Direction::Above, OVER),
    )?;
    check_clamped(&rt, &single, 0xc77ff000, &half, 0xfc00)?;
    check_plain(
        &rt,
        &single,
        0x477fefff,
        &half,
        (0x7bff, Direction::Below, FITS),
    )
}

// -0.5, -1.25, -1.5 and -2.5 are rounded to the nearest, and of two equally near to the even one, as their opposites are.
#[test]
fn nearest_below_zero(rt: HostRuntime) -> Result<(), Fail> {
    let single = Float::new(F32);
    let byte = Fixed::new(true, 8, 0)?;
    check_plain(
        &rt,
        &single,
        0xbf000000,
        &byte,
        (0x00, Direction::Above, FITS),
    )?;
    check_plain(
        &rt,
        &single,
        0xbfa00000,
        &byte,
        (0xff, Direction::Above, FITS),
    )?;
    check_plain(
        &rt,
        &single,
        0xbfc00000,
        &byte,
        (0xfe, Direction::Below, FITS),
    )?;
    check_plain(
        &rt,
        &single,
        0xc0200000,
        &byte,
        (0xfe, Direction::Above, FITS),
    )?;
    check_plain(
        &rt,
        &single,
        0x3fc00000,
        &byte,
        (0x02, Direction::Above, FITS),
    )?;
    check_plain(
        &rt,
        &single,
        0x40200000,
        &byte,
        (0x02, Direction::Below, FITS),
    )
}

// 1 + 2^-11 + 2^-63 lies just above the middle of two f16, and f64 has no digit for its last part: rounded to f64 first, it would be the middle
// itself, and then be rounded down.
#[test]
fn rounded_once(rt: HostRuntime) -> Result<(), Fail> {
    let fine = Fixed::new(false, 64, 63)?;
    let bits = 0x8010000000000001;
    let half = Float::new(F16);
    check_plain(&rt, &fine, bits, &half, (0x3c01, Direction::Above, FITS))?;
    let middle = 0x3ff0020000000000;
    check_plain(
        &rt,
        &fine,
        bits,
        &Float::new(F64),
        (middle, Direction::Below, FITS),
    )?;
    check_plain(
        &rt,
        &Float::new(F64),
        middle,
        &half,
        (0x3c00, Direction::Below, FITS),
    )
}

// The least f64 numbers as f32: loads up to half of the least f32 are rounded to 0, and keep their sign bit.
#[test]
fn subnormals(rt: HostRuntime) -> Result<(), Fail> {
    let double = Float::new(F64);
    let single = Float::new(F32);
    let minus_least = 0x8000000000000001;
    check_plain(
        &rt,
        &double,
        minus_least,
        &single,
        (0x80000000, Direction::Above, FITS),
    )?;
    check_plain(
        &rt,
        &double,
        0x3690000000000000,
        &single,
        (0, Direction::Below, FITS),
    )?;
    check_plain(
        &rt,
        &double,
        0x3690000000000001,
        &single,
        (1, Direction::Above, FITS),
    )?;
    // but minus zero is read as 0, which has no sign
    check_plain(
        &rt,
        &double,
        0x8000000000000000,
        &single,
        (0, Direction::Equal, FITS),
    )
}

// No number is refused 4, something endless 5 unless it is clamped, and a layer's refusal comes before both.
#[test]
fn refusals(rt: HostRuntime) -> Result<(), Fail> {
    let half = Float::new(F16);
    let nibbles = Fixed::new(true, 8, 4)?;
    check_refused(&rt, convert::plain(&half, 0x7e00, &nibbles), 4, 0)?;
    check_refused(&rt, convert::clamped(&half, 0x7e00, &nibbles), 4, 0)?;
    check_refused(&rt, convert::plain(&half, 0x7c00, &nibbles), 5, 0)?;
    check_clamped(&rt, &half, 0x7c00, &nibbles, 0x7f)?;
    check_clamped(&rt, &half, 0xfc00, &nibbles, 0x80)?;
    check_clamped(&rt, &half, 0xfc00, &Float::new(Bf16), 0xff80)?;
    let twice = Purchase::new(Fixed::new(false, 8, 0)?, 2)?;
    check_refused(&rt, convert::plain(&twice, 0x100, &half), 3, 1)?;
    check_refused(&rt, convert::clamped(&twice, 0x100, &half), 3, 1)?;
    check_plain(&rt, &twice, 0xff, &half, (0x5ff8, Direction::Equal, FITS))
}
