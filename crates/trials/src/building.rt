// Which forms and purchase layers are built.
use crate::refusing::check_refused;
use fixed::Fixed;
use float::{F16, Float};
use forms::Purchase;
use std::test::Fail;

#[test]
fn widths_and_fractions(rt: HostRuntime) -> Result<(), Fail> {
    let built = [(8, 0), (8, 8), (16, 16), (32, 31), (32, 32), (64, 64)];
    for (width, fraction) in built {
        Fixed::new(true, width, fraction)?;
        Fixed::new(false, width, fraction)?;
    }
    let refused = [
        (0, 0),
        (1, 0),
        (7, 0),
        (9, 9),
        (12, 4),
        (24, 0),
        (63, 0),
        (65, 0),
        (128, 0),
        (u32::MAX, 0),
    ];
    let too_long = [(8, 9), (16, 17), (32, 33), (64, 65), (64, u32::MAX)];
    for (width, fraction) in refused.into_iter().chain(too_long) {
        check_refused(&rt, Fixed::new(true, width, fraction), 1, 0)?;
        check_refused(&rt, Fixed::new(false, width, fraction), 1, 0)?;
    }
    Ok(())
}

#[test]
fn factors(rt: HostRuntime) -> Result<(), Fail> {
    for factor in 0..20 {
        let layer = Purchase::new(Float::new(F16), factor);
        if [2, 4, 8].contains(&factor) {
            layer?;
        } else {
            check_refused(&rt, layer, 2, 0)?;
        }
    }
    Ok(())
}
