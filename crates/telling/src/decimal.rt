ghost use Rattle.std.specs.Prelude.{◌≡◌, ◌≤◌, Some};
ghost use Rattle.telling.specs.Decimals.{point_text, decimal_text};

use crate::digits::Digits;
use forms::words;
use std::fmt;

// The point between the whole part of a number and the rest, where there is a rest.
fn point(rest: u64) -> &'static str
    ensures { result.now ≡ point_text rest }
{
    if rest == 0 { "" } else { "." }
}

// size / 2^places, with every decimal digit.
#[derive(Drop)]
pub(crate) struct Decimal {
    size: u64,
    places: u32,
    ghost word: { places ≤ 60 },
}

impl Decimal {
    pub(crate) fn new(size: u64, places: u32) -> Decimal
        requires { places ≤ 60 }
        ensures size { result.size ≡ size }
        ensures places { result.places ≡ places }
    {
        Decimal { size, places }
    }
}

impl fmt::Display for Decimal {
    ghost output = { λ d. Some (decimal_text d.size d.places) };

    fn fmt<W: fmt::Write>(&self, f: &mut fmt::Formatter<W>) -> fmt::Result {
        let whole = self.size >> self.places;
        let rest = words::low_digits(self.size, self.places);
        let point = point(rest);
        write!(f, "{whole}{point}")?;
        for digit in Digits::new(rest, self.places) {
            write!(f, "{digit}")?;
        }
        Ok(())
    }
}
