ghost use Rattle.fixed.specs.Fixeds.{Built, fixed_reads};
ghost use Rattle.std.proofs.Common.{rules};

use crate::form::Fixed;
use forms::{Cause, Load, Reading, Refusal, Source, words};

impl Fixed {
    // Refused unless the width is 8, 16, 32 or 64 and the fraction is no longer.
    pub fn new(signed: bool, width: u32, fraction: u32) -> Result<Fixed, Refusal>
        ensures { Built signed width fraction result }
    {
        if matches!(width, 8 | 16 | 32 | 64) && fraction <= width {
            Ok(Fixed {
                signed,
                width,
                fraction,
            })
        } else {
            Err(Refusal::new(Cause::UnlawfulForm))
        }
    }
}

impl Source for Fixed {
    ghost reads = { λ f bits. fixed_reads f.signed f.width f.fraction bits };

    ghost sound = { Prim.search rules };

    fn read(&self, bits: u64) -> Result<Reading, Refusal> {
        if words::fits(bits, self.width) {
            let number = self.neg_abs(bits);
            let load = Load::new(number.negative, number.size, self.fraction as i32);
            Ok(Reading::Finite(load))
        } else {
            Err(Refusal::new(Cause::BitsTooWide))
        }
    }
}
