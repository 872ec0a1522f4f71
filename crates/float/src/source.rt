ghost use Rattle.std.specs.Prelude.{◌≡◌};
ghost use Rattle.float.specs.Floats.{float_reads};
ghost use Rattle.float.specs.InRange.{float_sound};

use crate::float_helper::kind;
use crate::format::Format;
use forms::{Cause, Reading, Refusal, Source, words};

// A float form, of a format that its type names.
#[derive(Clone, Copy, PartialEq, Eq, Hash, Debug, Default)]
pub struct Float<F> {
    format: F,
}

impl<F> Float<F> {
    // The form of a format.
    pub fn new(format: F) -> Float<F>
        ensures { result.format ≡ format }
    {
        Float { format }
    }
}

impl<F: Format> Source for Float<F> {
    ghost reads = { λ f bits. float_reads F.WIDTH F.PREC bits };

    ghost sound = { λ s bits. float_sound F.WIDTH F.PREC bits F.lawful };

    fn read(&self, bits: u64) -> Result<Reading, Refusal> {
        if words::fits(bits, F::WIDTH) {
            Ok(kind::<F>(bits))
        } else {
            Err(Refusal::new(Cause::BitsTooWide))
        }
    }
}
