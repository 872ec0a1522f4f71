ghost use Rattle.std.specs.Prelude.{◌≡◌, ℕ};
ghost use Rattle.float.specs.Formats.{Lawful};

// A binary floating-point format: its width in bits, and its precision, the number of binary digits of a full significand.
pub trait Format {
    const WIDTH: u32;

    ghost WIDTH: { ℕ };

    const PREC: u32;

    ghost PREC: { ℕ };

    ghost lawful: { Lawful WIDTH PREC };

    // `WIDTH`, as a call.
    fn width_bits() -> u32
        ensures { result ≡ WIDTH }
    {
        Self::WIDTH
    }

    // `PREC`, likewise.
    fn precision() -> u32
        ensures { result ≡ PREC }
    {
        Self::PREC
    }
}
