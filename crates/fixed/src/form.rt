ghost use Rattle.std.specs.Prelude.{◌≡◌, true};
ghost use Rattle.fixed.specs.Widths.{lawful};

// A fixed form: bits of this width stand for a whole number, unsigned or in two's complement, over 2^fraction.
// It stands in a file of its own, so that the files where it reads and writes can import the definitions that name it at their top.
#[derive(Clone, Copy, PartialEq, Eq, Hash, Debug)]
pub struct Fixed {
    // two's complement, or else unsigned
    pub(crate) signed: bool,
    pub(crate) width: u32,
    // how many of the bits stand after the point
    pub(crate) fraction: u32,
    ghost is_lawful: { lawful width fraction ≡ true },
}
