ghost use Rattle.std.specs.Prelude.{◌≡◌, Ok, Err};
ghost use Rattle.forms.specs.Refusals.{told};
ghost use Rattle.forms.specs.Purchases.{doublings, factor_of, raise_load, layered, times, Counts};
ghost use Rattle.std.proofs.Common.{rules};

use crate::load::{Load, Reading};
use crate::ranged::RangedLoad;
use crate::refusal::{Cause, Refusal};
use crate::source::Source;

// The factor of a purchase: a rope rove double, twice double or thrice double, under which a load counts 2, 4 or 8 times.
#[derive(Clone, Copy, Debug, PartialEq, Eq, Hash)]
pub enum Factor {
    Two,
    Four,
    Eight,
}

// Refused unless the number is 2, 4 or 8.
impl TryFrom<u32> for Factor {
    type Error = Refusal;

    ghost try_from_gives = { λ factor result. told result ≡ factor_of factor };

    fn try_from(factor: u32) -> Result<Factor, Refusal> {
        match factor {
            2 => Ok(Factor::Two),
            4 => Ok(Factor::Four),
            8 => Ok(Factor::Eight),
            _ => Err(Refusal::new(Cause::UnlawfulFactor)),
        }
    }
}

impl Factor {
    // Likewise, by name.
    pub fn new(factor: u32) -> Result<Factor, Refusal>
        ensures { told result ≡ factor_of factor }
    {
        Self::try_from(factor)
    }

    // The factor is two to this power.
    fn doublings(self) -> u8
        ensures { result ≡ doublings self }
    {
        match self {
            Factor::Two => 1,
            Factor::Four => 2,
            Factor::Eight => 3,
        }
    }
}

// A purchase layer: a source of readings whose every load counts 2, 4 or 8 times that of the source which it holds.
#[derive(Clone, Debug, Drop, PartialEq, Eq, Hash)]
pub struct Purchase<S> {
    // what is below the layer
    source: S,
    factor: Factor,
}

impl<S: Drop> Purchase<S> {
    // Refused unless the factor is 2, 4 or 8.
    pub fn new(source: S, factor: u32) -> Result<Purchase<S>, Refusal>
        ensures { elim result [ Ok p ↦ (p.source ≡ source) × (Ok p.factor ≡ factor_of factor) | Err e ↦ told (Err e) ≡ factor_of factor ] }
    {
        let factor = Factor::try_from(factor)?;
        Ok(Purchase { source, factor })
    }
}

// The load of a source as it counts under a layer.
fn raise_load(factor: Factor, below: RangedLoad) -> Result<Reading, Refusal>
    ensures { told result ≡ raise_load factor below.load }
{
    let load = below.load;
    if load.size == 0 {
        return Ok(Reading::Finite(load));
    }
    let scale = load.scale - factor.doublings() as i32;
    if scale < -1000 {
        return Err(Refusal::new(Cause::ScaleTooLow));
    }
    Ok(Reading::Finite(Load { scale, ..load }))
}

impl<S: Source> Source for Purchase<S> {
    ghost reads = { λ p bits. layered p.factor (S.Source.reads p.source bits) };

    ghost sound = { Prim.search rules };

    fn read(&self, bits: u64) -> Result<Reading, Refusal>
        ensures value { told result ≡ layered self.now.factor (S.Source.reads self.now.source bits) }
        ensures counts { Counts (times self.now.factor) (S.Source.reads self.now.source bits) (told result) }
    {
        match self.source.read(bits) {
            Ok(Reading::Finite(load)) => raise_load(self.factor, RangedLoad { load }),
            Ok(other) => Ok(other),
            Err(refusal) => Err(refusal.deeper()),
        }
    }
}
