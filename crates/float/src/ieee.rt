// The formats of IEEE 754: half, single and double precision.
ghost use Rattle.float.specs.Formats.{binary16, binary32, binary64};

use crate::format::Format;

// binary16
#[derive(Clone, Copy, PartialEq, Eq, Hash, Debug, Default)]
pub struct F16;

impl Format for F16 {
    const WIDTH: u32 = 16;

    ghost WIDTH = { 16 };

    const PREC: u32 = 11;

    ghost PREC = { 11 };

    ghost lawful = { binary16 };
}

// binary32
#[derive(Clone, Copy, PartialEq, Eq, Hash, Debug, Default)]
pub struct F32;

impl Format for F32 {
    const WIDTH: u32 = 32;

    ghost WIDTH = { 32 };

    const PREC: u32 = 24;

    ghost PREC = { 24 };

    ghost lawful = { binary32 };
}

// binary64
#[derive(Clone, Copy, PartialEq, Eq, Hash, Debug, Default)]
pub struct F64;

impl Format for F64 {
    const WIDTH: u32 = 64;

    ghost WIDTH = { 64 };

    const PREC: u32 = 53;

    ghost PREC = { 53 };

    ghost lawful = { binary64 };
}
