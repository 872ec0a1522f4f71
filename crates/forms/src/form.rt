ghost use Rattle.std.specs.Prelude.{◌≡◌, ℕ, pos};
ghost use Rattle.forms.specs.Amounts.{InRange};
ghost use Rattle.forms.specs.Forms.{Writing, form_of, rounded, ReadsAs, Coarse, Faithful, Laws, Rounds, Asked};

use crate::source::Source;

// A form: a source that also writes. An amount L other than 0, as a load is worth, has an exponent e, the whole number with 2^e <= |L| < 2^(e+1). The
// form names a grain g for each e from -1,074 to 1,100, and L is rounded to the nearest M × 2^g with M whole, of two equally near to the even M.
// It shows a load if some bits read as it.
pub trait Form: Source {
    // its grain, its write, its zero and its edges
    ghost writing: { Self → Writing };

    // The grain for an exponent. Every load X that the form shows with |X| >= 2^e is a whole multiple of 2^g, and where g > e, it shows no load X
    // with |X| strictly between 0 and 2^g.
    fn grain(&self, e: i32) -> i32
        requires { InRange e }
        ensures value { result ≡ (writing self.now).grain e }
        ensures ranged { InRange result }
        ensures coarse { Coarse (Self.Source.reads self.now) e result };

    // The bits and the flag for a sign, an exponent, the lowest 64 binary digits of |M| and a mark that |M| is 2^64 or more. It is flagged exactly
    // if the form does not show M × 2^g, and otherwise the bits read as that load.
    fn write(&self, negative: bool, e: i32, low: u64, more: bool) -> (u64, bool)
        requires { Asked (writing self.now) e low more }
        ensures value { result ≡ (writing self.now).write negative e low more }
        ensures faithful { (n : ℕ) → Rounds (writing self.now) e low more n → Faithful (Self.Source.reads self.now) (rounded (writing self.now) negative n) result };

    // The bits for 0, which read as 0.
    fn zero(&self) -> u64
        ensures value { result ≡ (writing self.now).zero }
        ensures nothing { ReadsAs (Self.Source.reads self.now) result (pos 0) };

    // The edge: the clamped answer where what is written for that sign is flagged, and for an endless reading of that sign.
    fn edge(&self, negative: bool) -> u64
        ensures { result ≡ (writing self.now).edge negative };

    // the three laws, that grains are in range, and that its zero reads as 0
    ghost laws: { (f : Self) → Laws (form_of (Self.Source.reads f) (writing f)) };
}
