// The format of bfloat16: the upper half of a single.
ghost use Rattle.float.specs.Formats.{bfloat16};

use crate::format::Format;

#[derive(Clone, Copy, PartialEq, Eq, Hash, Debug, Default)]
pub struct Bf16;

impl Format for Bf16 {
    const WIDTH: u32 = 16;

    ghost WIDTH = { 16 };

    const PREC: u32 = 8;

    ghost PREC = { 8 };

    ghost lawful = { bfloat16 };
}
