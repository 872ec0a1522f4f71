// Loads and readings in words.
ghost use Rattle.std.specs.Prelude.{◌≡◌, Some};
ghost use Rattle.telling.specs.Texts.{sign_text, power_text, amount_text, reading_text};

use crate::decimal::Decimal;
use forms::{Load, Reading};
use std::fmt;

// The sign of a number, for one below 0.
fn sign(negative: bool) -> &'static str
    ensures { result.now ≡ sign_text negative }
{
    if negative { "-" } else { "" }
}

// A load as its size and scale.
#[derive(Drop)]
struct Power(Load);

impl fmt::Display for Power {
    ghost output = { λ p. Some (power_text p.0) };

    fn fmt<W: fmt::Write>(&self, f: &mut fmt::Formatter<W>) -> fmt::Result {
        let sign = sign(self.0.negative);
        let size = self.0.size;
        let scale = self.0.scale;
        write!(f, "{sign}{size}/2^{scale}")
    }
}

// A load as a rigger reads it: in kilonewtons, with every decimal digit where the scale is from 0 to 60, then as its size and scale.
#[derive(Drop)]
pub struct Amount(pub Load);

impl fmt::Display for Amount {
    ghost output = { λ a. Some (amount_text a.0) };

    fn fmt<W: fmt::Write>(&self, f: &mut fmt::Formatter<W>) -> fmt::Result {
        let load = self.0;
        let power = Power(load);
        match u32::try_from(load.scale) {
            Ok(places) if places <= 60 => {
                let sign = sign(load.negative);
                let decimal = Decimal::new(load.size, places);
                write!(f, "{sign}{decimal} kN ({power})")
            }
            _ => write!(f, "{power} kN"),
        }
    }
}

// A reading in words.
#[derive(Drop)]
pub struct Told(pub Reading);

impl fmt::Display for Told {
    ghost output = { λ t. Some (reading_text t.0) };

    fn fmt<W: fmt::Write>(&self, f: &mut fmt::Formatter<W>) -> fmt::Result {
        match self.0 {
            Reading::NoNumber => write!(f, "no number"),
            Reading::EndlessUp => write!(f, "endless up"),
            Reading::EndlessDown => write!(f, "endless down"),
            Reading::Finite(load) => {
                let amount = Amount(load);
                write!(f, "{amount}")
            }
        }
    }
}
