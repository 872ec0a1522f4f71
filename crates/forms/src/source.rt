ghost use Rattle.std.specs.Prelude.{◌≡◌, ℕ, Result};
ghost use Rattle.forms.specs.declared.load.Reading.{Reading};
ghost use Rattle.forms.specs.Refusals.{Refused, told};
ghost use Rattle.forms.specs.Loads.{Sound};

use crate::load::Reading;
use crate::refusal::Refusal;

// A source: it says for each bit pattern a refusal, no number, endless up or down, or a load. The answer depends on the source and the bits alone.
pub trait Source {
    // what is read from each bit pattern
    ghost reads: { Self → ℕ → Result Reading Refused };

    // What these bits stand for.
    fn read(&self, bits: u64) -> Result<Reading, Refusal>
        ensures value { told result ≡ reads self.now bits };

    // every load read is in range, and zero has scale 0 and no sign
    ghost sound: { (s : Self) (bits : ℕ) → Sound (reads s bits) };
}
