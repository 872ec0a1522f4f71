// The float formats that have names.
ghost use Rattle.std.specs.Prelude.{◌≡◌};
ghost use Rattle.forms.specs.Amounts.{InRange};
ghost use Rattle.forms.specs.Forms.{Asked};
ghost use Rattle.kinds.specs.Names.{float_meaning};
ghost use Rattle.kinds.specs.NameLaws.{float_sound, float_laws};
ghost use Rattle.kinds.specs.Spellings.{format_word};
ghost use Rattle.forms.specs.Spellings.{Spells};

use float::{Bf16, F16, F32, F64, Float};
use forms::{Form, Reading, Refusal, Source, UnknownWord};
use std::str::FromStr;

// A float's format, by its name; it reads and writes as a float of that format.
#[derive(Clone, Copy, Debug, PartialEq, Eq, Hash)]
pub enum FormatName {
    F16,
    Bf16,
    F32,
    F64,
}

impl FromStr for FormatName {
    type Err = UnknownWord;

    ghost from_str_gives = { Spells format_word };

    fn from_str(word: &str) -> Result<FormatName, UnknownWord> {
        match word {
            "f16" => Ok(FormatName::F16),
            "bf16" => Ok(FormatName::Bf16),
            "f32" => Ok(FormatName::F32),
            "f64" => Ok(FormatName::F64),
            _ => Err(UnknownWord),
        }
    }
}

impl Source for FormatName {
    ghost reads = { λ name. (float_meaning name).reads };

    ghost sound = { float_sound };

    #[inline(always)]
    fn read(&self, bits: u64) -> Result<Reading, Refusal> {
        match self {
            FormatName::F16 => Float::new(F16).read(bits),
            FormatName::Bf16 => Float::new(Bf16).read(bits),
            FormatName::F32 => Float::new(F32).read(bits),
            FormatName::F64 => Float::new(F64).read(bits),
        }
    }
}

impl FormatName {
    // The grain of the float that is named.
    fn float_grain(&self, e: i32) -> i32
        requires { InRange e }
        ensures { result ≡ (float_meaning self.now).writing.grain e }
    {
        match self {
            FormatName::F16 => Float::new(F16).grain(e),
            FormatName::Bf16 => Float::new(Bf16).grain(e),
            FormatName::F32 => Float::new(F32).grain(e),
            FormatName::F64 => Float::new(F64).grain(e),
        }
    }

    // What the float that is named writes.
    fn float_write(&self, negative: bool, e: i32, low: u64, more: bool) -> (u64, bool)
        requires { Asked (float_meaning self.now).writing e low more }
        ensures { result ≡ (float_meaning self.now).writing.write negative e low more }
    {
        match self {
            FormatName::F16 => Float::new(F16).write(negative, e, low, more),
            FormatName::Bf16 => Float::new(Bf16).write(negative, e, low, more),
            FormatName::F32 => Float::new(F32).write(negative, e, low, more),
            FormatName::F64 => Float::new(F64).write(negative, e, low, more),
        }
    }
}

impl Form for FormatName {
    ghost writing = { λ name. (float_meaning name).writing };

    ghost laws = { float_laws };

    fn grain(&self, e: i32) -> i32 {
        self.float_grain(e)
    }

    fn write(&self, negative: bool, e: i32, low: u64, more: bool) -> (u64, bool) {
        self.float_write(negative, e, low, more)
    }

    fn zero(&self) -> u64 {
        match self {
            FormatName::F16 => Float::new(F16).zero(),
            FormatName::Bf16 => Float::new(Bf16).zero(),
            FormatName::F32 => Float::new(F32).zero(),
            FormatName::F64 => Float::new(F64).zero(),
        }
    }

    fn edge(&self, negative: bool) -> u64 {
        match self {
            FormatName::F16 => Float::new(F16).edge(negative),
            FormatName::Bf16 => Float::new(Bf16).edge(negative),
            FormatName::F32 => Float::new(F32).edge(negative),
            FormatName::F64 => Float::new(F64).edge(negative),
        }
    }
}
