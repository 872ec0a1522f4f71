// How readings of different kinds compare.
use crate::refusing::check_refused;
use fixed::Fixed;
use float::{F16, F32, F64, Float};
use forms::cmp::{compare, equal};
use forms::{Comparison, Purchase, Source};
use std::process::Abort;
use std::test::Fail;

// Both directions, and equality in both.
fn check_compared<A: Source, B: Source>(
    rt: &impl Abort,
    left: &A,
    a: u64,
    right: &B,
    b: u64,
    expected: Comparison,
) -> Result<(), Fail> {
    assert_eq!(rt; compare(left, a, right, b)?, expected);
    assert_eq!(rt; compare(right, b, left, a)?, expected.reverse());
    let same = expected == Comparison::Equal;
    assert_eq!(rt; equal(left, a, right, b)?, same);
    assert_eq!(rt; equal(right, b, left, a)?, same);
    Ok(())
}

#[test]
fn loads(rt: HostRuntime) -> Result<(), Fail> {
    check_compared(
        &rt,
        &Fixed::new(true, 8, 4)?,
        0x08,
        &Fixed::new(true, 16, 8)?,
        0x0080,
        Comparison::Equal,
    )?;
    check_compared(
        &rt,
        &Fixed::new(true, 8, 0)?,
        0xff,
        &Fixed::new(false, 64, 64)?,
        0,
        Comparison::Less,
    )?;
    check_compared(
        &rt,
        &Fixed::new(false, 64, 64)?,
        u64::MAX,
        &Float::new(F64),
        0x3ff0000000000000,
        Comparison::Less,
    )?;
    check_compared(
        &rt,
        &Fixed::new(true, 64, 0)?,
        0x7fffffffffffffff,
        &Float::new(F64),
        0x43f0000000000000,
        Comparison::Less,
    )?;
    check_compared(
        &rt,
        &Fixed::new(true, 64, 0)?,
        0x8000000000000000,
        &Float::new(F64),
        0xc3f0000000000000,
        Comparison::More,
    )?;
    check_compared(
        &rt,
        &Float::new(F64),
        1,
        &Float::new(F16),
        1,
        Comparison::Less,
    )?;
    check_compared(
        &rt,
        &Float::new(F64),
        0x7fefffffffffffff,
        &Float::new(F32),
        0x7f7fffff,
        Comparison::More,
    )?;
    check_compared(
        &rt,
        &Fixed::new(false, 8, 0)?,
        0,
        &Float::new(F16),
        0x8000,
        Comparison::Equal,
    )
}

#[test]
fn no_number_and_endless(rt: HostRuntime) -> Result<(), Fail> {
    let half = Float::new(F16);
    let single = Float::new(F32);
    check_compared(
        &rt,
        &half,
        0x7e00,
        &single,
        0x7fc00000,
        Comparison::Unordered,
    )?;
    check_compared(
        &rt,
        &half,
        0x7e00,
        &single,
        0x7f800000,
        Comparison::Unordered,
    )?;
    check_compared(
        &rt,
        &Fixed::new(false, 8, 0)?,
        0,
        &half,
        0x7e00,
        Comparison::Unordered,
    )?;
    check_compared(&rt, &half, 0x7c00, &single, 0x7f800000, Comparison::Equal)?;
    check_compared(&rt, &half, 0xfc00, &single, 0xff800000, Comparison::Equal)?;
    check_compared(&rt, &half, 0x7c00, &single, 0xff800000, Comparison::More)?;
    check_compared(
        &rt,
        &half,
        0x7c00,
        &Float::new(F64),
        0x7fefffffffffffff,
        Comparison::More,
    )?;
    check_compared(
        &rt,
        &half,
        0xfc00,
        &Fixed::new(true, 64, 0)?,
        0x8000000000000000,
        Comparison::Less,
    )
}

// The left reading's refusal comes first, then the right one's.
#[test]
fn refusals_in_order(rt: HostRuntime) -> Result<(), Fail> {
    let left = Fixed::new(true, 8, 0)?;
    let right = Purchase::new(Fixed::new(true, 16, 0)?, 2)?;
    check_refused(&rt, compare(&left, 0x100, &right, 0x10000), 3, 0)?;
    check_refused(&rt, compare(&left, 0xff, &right, 0x10000), 3, 1)?;
    check_refused(&rt, equal(&right, 0x10000, &left, 0x100), 3, 1)
}
