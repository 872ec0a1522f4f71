ghost use Rattle.std.specs.Prelude.{◌≡◌, ℕ, true, Ok};
ghost use Rattle.forms.specs.Loads.{endless};
ghost use Rattle.forms.specs.Forms.{rounded, Faithful, Rounds, Asked};
ghost use Rattle.float.specs.Floats.{sign_of};
ghost use Rattle.float.specs.Writings.{float_writing, meaning};
ghost use Rattle.float.specs.FloatLaws.{float_laws};

use crate::float_helper;
use crate::format::Format;
use crate::source::Float;
use forms::Form;

impl<F: Format> Form for Float<F> {
    ghost writing = { λ f. float_writing F.WIDTH F.PREC };

    ghost laws = { λ f. float_laws F.WIDTH F.PREC F.lawful };

    // The greater of e and EXP_MIN, less the precision, plus 1.
    fn grain(&self, e: i32) -> i32 {
        float_helper::grain::<F>(e)
    }

    // A load beyond the greatest number is infinity of its sign, and flagged. One that is rounded to 0 keeps its sign bit. A significand has few
    // enough digits for `low`, so there is no mark to look at.
    fn write(&self, negative: bool, e: i32, low: u64, more: bool) -> (u64, bool)
        requires { Asked (meaning F.Format).writing e low more }
        ensures value { result ≡ (meaning F.Format).writing.write negative e low more }
        ensures faithful { (n : ℕ) → Rounds (meaning F.Format).writing e low more n → Faithful (meaning F.Format).reads (rounded (meaning F.Format).writing negative n) result }
        ensures infinite { result.1 ≡ true → (meaning F.Format).reads result.0 ≡ Ok (endless negative) }
        ensures sign { sign_of F.WIDTH result.0 ≡ negative }
    {
        float_helper::from_to_float_helper::<F>(negative, e, low)
    }

    // No sign bit, and no other.
    fn zero(&self) -> u64 {
        float_helper::sign_bit::<F>(false)
    }

    // Infinity of the sign.
    fn edge(&self, negative: bool) -> u64
        ensures value { result ≡ (meaning F.Format).writing.edge negative }
        ensures infinite { (meaning F.Format).reads result ≡ Ok (endless negative) }
    {
        float_helper::signed_infinity::<F>(negative)
    }
}
