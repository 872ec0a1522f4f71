// What bits are read as, at the limits of each form and under purchase layers.
use crate::refusing::check_refused;
use fixed::Fixed;
use float::{Bf16, F16, F32, F64, Float};
use forms::{Purchase, Reading, Source};
use std::process::Abort;
use std::test::Fail;

fn check_load<S: Source>(
    rt: &impl Abort,
    source: &S,
    bits: u64,
    negative: bool,
    size: u64,
    scale: i32,
) -> Result<(), Fail> {
    let Reading::Finite(load) = source.read(bits)? else {
        return Err(Fail::new("no load"));
    };
    assert_eq!(rt; load.negative, negative);
    assert_eq!(rt; load.size, size);
    assert_eq!(rt; load.scale, scale);
    Ok(())
}

#[test]
fn fixed_limits(rt: HostRuntime) -> Result<(), Fail> {
    let byte = Fixed::new(true, 8, 8)?;
    check_load(&rt, &byte, 0x00, false, 0, 0)?;
    check_load(&rt, &byte, 0x7f, false, 127, 8)?;
    check_load(&rt, &byte, 0x80, true, 128, 8)?;
    check_load(&rt, &byte, 0xff, true, 1, 8)?;
    check_refused(&rt, byte.read(0x100), 3, 0)?;
    let word = Fixed::new(true, 64, 0)?;
    check_load(&rt, &word, u64::MAX, true, 1, 0)?;
    check_load(&rt, &word, 0x8000000000000000, true, 0x8000000000000000, 0)?;
    let plain = Fixed::new(false, 64, 64)?;
    check_load(&rt, &plain, u64::MAX, false, u64::MAX, 64)?;
    check_refused(&rt, Fixed::new(false, 32, 1)?.read(0x100000000), 3, 0)
}

#[test]
fn float_limits(rt: HostRuntime) -> Result<(), Fail> {
    let half = Float::new(F16);
    check_load(&rt, &half, 0x8000, false, 0, 0)?;
    check_load(&rt, &half, 0x0001, false, 1, 24)?;
    check_load(&rt, &half, 0x83ff, true, 0x3ff, 24)?;
    check_load(&rt, &half, 0x0400, false, 0x400, 24)?;
    check_load(&rt, &half, 0x7bff, false, 0x7ff, -5)?;
    check_refused(&rt, half.read(0x10000), 3, 0)?;
    check_load(&rt, &Float::new(Bf16), 0x3f80, false, 0x80, 7)?;
    check_load(&rt, &Float::new(F32), 0x40c80000, false, 0xc80000, 21)?;
    check_refused(&rt, Float::new(F32).read(0x100000000), 3, 0)?;
    check_load(&rt, &Float::new(F64), 0x0000000000000001, false, 1, 1074)?;
    check_load(
        &rt,
        &Float::new(F64),
        0xffefffffffffffff,
        true,
        0x1fffffffffffff,
        -971,
    )
}

#[test]
fn under_layers(rt: HostRuntime) -> Result<(), Fail> {
    let once = Purchase::new(Fixed::new(true, 8, 0)?, 2)?;
    check_load(&rt, &once, 0x00, false, 0, 0)?;
    check_load(&rt, &once, 0xff, true, 1, -1)?;
    check_refused(&rt, once.read(0x100), 3, 1)?;
    let thrice = Purchase::new(Purchase::new(once, 4)?, 8)?;
    check_load(&rt, &thrice, 0x03, false, 3, -6)?;
    check_refused(&rt, thrice.read(0x100), 3, 3)
}

// The largest f64 has scale -971, so 29 doublings are read and 30 are not.
#[test]
fn scale_limit(rt: HostRuntime) -> Result<(), Fail> {
    let three = Purchase::new(Purchase::new(Purchase::new(Float::new(F64), 8)?, 8)?, 8)?;
    let nine = Purchase::new(
        Purchase::new(
            Purchase::new(
                Purchase::new(Purchase::new(Purchase::new(three, 8)?, 8)?, 8)?,
                8,
            )?,
            8,
        )?,
        8,
    )?;
    let most = Purchase::new(nine, 4)?;
    check_load(
        &rt,
        &most,
        0x7fefffffffffffff,
        false,
        0x1fffffffffffff,
        -1000,
    )?;
    check_load(&rt, &most, 0, false, 0, 0)?;
    check_refused(&rt, Purchase::new(most, 2)?.read(0x7fefffffffffffff), 6, 0)
}
