// How a fixed form writes whole numbers: modulo 2^width, flagged where they lie outside what its bits stand for.
ghost use Rattle.std.specs.Prelude.{◌≡◌, ℕ, pos, neg_ℤ};
ghost use Rattle.forms.specs.Loads.{signed as with_sign};
ghost use Rattle.forms.specs.Forms.{rounded, grains, Faithful, Rounds};
ghost use Rattle.fixed.specs.Wholes.{number};
ghost use Rattle.fixed.specs.Writings.{extreme, fixed_writes, fixed_writing, meaning, Wraps, Outermost};
ghost use Rattle.fixed.specs.Shapes.{laws_of};

use crate::form::Fixed;
use crate::int_helper::Whole;
use forms::{Form, words};

impl Fixed {
    // The least whole number that the bits stand for, or the greatest.
    fn limit(self, negative: bool) -> Whole
        ensures value { number result ≡ extreme self.signed self.width negative }
        ensures sign { result.negative ≡ negative }
    {
        let size = if self.signed {
            let most = words::ones(self.width - 1);
            if negative { most + 1 } else { most }
        } else if negative {
            0
        } else {
            words::ones(self.width)
        };
        Whole::new(negative, size)
    }

    // The grain: one unit of the last digit after the point, as a power of two.
    fn last_digit(self) -> i32
        ensures { result ≡ neg_ℤ (pos self.fraction) }
    {
        -(self.fraction as i32)
    }

    // The bits of 0, which is written as any whole number is.
    fn zero_bits(self) -> u64
        ensures { result ≡ 0 }
    {
        Whole::new(false, 0).low_digits(self.width)
    }

    // The bits for a whole number of which these are the lowest digits, and whether they do not stand for it.
    fn written(self, low: Whole, more: bool) -> (u64, bool)
        ensures { result ≡ fixed_writes self.signed self.width low.negative low.size more }
    {
        let over = more || low.size > self.limit(low.negative).size;
        (low.low_digits(self.width), over)
    }
}

impl Form for Fixed {
    ghost writing = { λ f. fixed_writing f.signed f.width f.fraction };

    ghost laws = { λ f. laws_of f };

    fn grain(&self, e: i32) -> i32 {
        self.last_digit()
    }

    // Only the lowest 64 digits of M are handed over; the bits are all of M modulo 2^width, flagged exactly if M lies outside.
    fn write(&self, negative: bool, e: i32, low: u64, more: bool) -> (u64, bool)
        ensures value { result ≡ (meaning self.now).writing.write negative e low more }
        ensures faithful { (n : ℕ) → Rounds (meaning self.now).writing e low more n → Faithful (meaning self.now).reads (rounded (meaning self.now).writing negative n) result }
        ensures modulo { (n : ℕ) → Rounds (meaning self.now).writing e low more n → Wraps self.now.signed self.now.width (with_sign negative (grains (meaning self.now).writing n)) result }
    {
        self.written(Whole::new(negative, low), more)
    }

    fn zero(&self) -> u64 {
        self.zero_bits()
    }

    // No bits of the width stand for a lesser number, or for a greater one.
    fn edge(&self, negative: bool) -> u64
        ensures value { result ≡ (meaning self.now).writing.edge negative }
        ensures extreme { Outermost self.now.signed self.now.width negative result }
    {
        self.limit(negative).low_digits(self.width)
    }
}
