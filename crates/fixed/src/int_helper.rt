// Whole numbers by sign and size, and two's complement: `neg_abs` is ported from int_helper.rs of the Rust crate `fixed`.
ghost use Rattle.std.specs.Prelude.{◌≡◌, ◌-◌, ◌^◌, ◌<◌, ◌≤◌, ◌&&◌, nat_le};
ghost use Rattle.fixed.specs.Wholes.{number};
ghost use Rattle.fixed.specs.Fixeds.{value};
ghost use Rattle.fixed.specs.Writings.{modulo};

use crate::form::Fixed;
use forms::words;

// A whole number, by its sign and its size; 0 may have either sign.
#[derive(Clone, Copy)]
pub(crate) struct Whole {
    pub(crate) negative: bool,
    pub(crate) size: u64,
}

impl Whole {
    // The number of a sign and a size.
    pub(crate) fn new(negative: bool, size: u64) -> Whole
        ensures { result ≡ record { negative = negative; size = size } }
    {
        Whole { negative, size }
    }

    // The number modulo 2^64: two's complement in a whole word.
    fn word(self) -> u64
        ensures { result ≡ modulo (number self) (2 ^ 64) }
    {
        if self.negative {
            self.size.wrapping_neg()
        } else {
            self.size
        }
    }

    // The number modulo 2^width, which is the lowest digits of that.
    #[tactic(auto, using(crate::specs::Residues::modulo_word))]
    pub(crate) fn low_digits(self, width: u32) -> u64
        requires { width ≤ 64 }
        ensures { result ≡ modulo (number self) (2 ^ width) }
    {
        words::low_digits(self.word(), width)
    }
}

impl Fixed {
    // The whole number that the bits stand for.
    pub(crate) fn neg_abs(self, bits: u64) -> Whole
        requires { bits < 2 ^ self.width }
        ensures value { number result ≡ value self.signed self.width bits }
        ensures sign { result.negative ≡ (self.signed && nat_le (2 ^ (self.width - 1)) bits) }
    {
        if self.signed && !words::fits(bits, self.width - 1) {
            Whole::new(true, words::low_digits(bits.wrapping_neg(), self.width))
        } else {
            Whole::new(false, bits)
        }
    }
}
