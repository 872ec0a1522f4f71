// What a line claims of the forms, and whether they answer so.
ghost use Rattle.std.specs.Prelude.{◌≡◌, Decides, IfOk};
ghost use Rattle.lists.specs.declared.claims.NoClaim.TheVariants.{Malformed as malformed, Unlawful as unlawful};
ghost use Rattle.lists.specs.Lines.{SaysReading, SaysFloat, SaysForm, SaysAnswers, SaysConversion, Claims, Read, Holds};

use crate::answers::{Answer, Answers, Side, both_ways, reads_as};
use crate::conversions::{Conversion, converts};
use crate::line::{Malformed, Words, equality, flag, hex, sign, signedness};
use crate::tally::LineKind;
use fixed::Fixed;
use forms::{Load, Reading, Refusal, UnknownWord};
use kinds::{FormName, FormatName};
use std::num::ParseIntError;
use thiserror::Error;

// What a line claims, of each kind.
#[derive(Clone, Copy, Debug)]
pub enum Claim {
    // a float's bits are read as that
    Kind(Side<FormatName>, Reading),
    // a whole number's bits stand for that
    NegAbs(Side<Fixed>, Load),
    // a fixed form's number compares so to a float's
    Compare(Side<Fixed>, Side<FormatName>, Answers),
    // a fixed form's number has these bits in a float
    ToFloat(Side<Fixed>, Side<FormatName>),
    // a float is that in a fixed form
    FromFloat(Side<FormatName>, Fixed, Conversion),
    // bits of one form are that in another
    Convert(Side<FormName>, FormName, Conversion),
}

impl Claim {
    // Whether the forms answer so.
    pub fn holds(&self) -> bool
        ensures { Decides result (Holds self.now) }
    {
        match self {
            Claim::Kind(float, reading) => reads_as(float, *reading),
            Claim::NegAbs(fixed, load) => reads_as(fixed, Reading::Finite(*load)),
            Claim::Compare(fixed, float, answers) => both_ways(fixed, float, *answers),
            Claim::ToFloat(fixed, float) => {
                converts(fixed, &float.form, Conversion::Bits(float.bits))
            }
            Claim::FromFloat(float, fixed, said) => converts(float, fixed, *said),
            Claim::Convert(source, form, said) => converts(source, form, *said),
        }
    }
}

// Why a line claims nothing.
#[derive(Clone, Copy, Debug, PartialEq, Eq, Hash, Error)]
pub enum NoClaim {
    #[error("the line does not say what a line of its kind says")]
    Malformed,
    #[error("the line names a fixed form that there is not")]
    Unlawful,
}

impl From<Malformed> for NoClaim {
    ghost from_gives = { λ _ e. e ≡ malformed };

    fn from(_error: Malformed) -> NoClaim {
        NoClaim::Malformed
    }
}

impl From<ParseIntError> for NoClaim {
    ghost from_gives = { λ _ e. e ≡ malformed };

    fn from(_error: ParseIntError) -> NoClaim {
        NoClaim::Malformed
    }
}

impl From<UnknownWord> for NoClaim {
    ghost from_gives = { λ _ e. e ≡ malformed };

    fn from(_error: UnknownWord) -> NoClaim {
        NoClaim::Malformed
    }
}

impl From<Refusal> for NoClaim {
    ghost from_gives = { λ _ e. e ≡ unlawful };

    fn from(_error: Refusal) -> NoClaim {
        NoClaim::Unlawful
    }
}

// `nan`, `infinite SIGN` or `finite SIGN SIZE SCALE`.
fn reading(words: &mut Words<'_>) -> Result<Reading, Malformed>
    ensures { IfOk result (λ said. SaysReading said words.old.rest words.new.rest) }
{
    match words.word()? {
        "nan" => Ok(Reading::NoNumber),
        "infinite" => {
            let negative = sign(words.word()?)?;
            Ok(Reading::endless(negative))
        }
        "finite" => {
            let negative = sign(words.word()?)?;
            let size = hex(words.word()?)?;
            let scale = words.word()?.parse()?;
            Ok(Reading::Finite(Load {
                negative,
                size,
                scale,
            }))
        }
        _ => Err(Malformed),
    }
}

// COMPARISON COMPARISON EQUALITY EQUALITY, each there and then back.
fn both_answers(words: &mut Words<'_>) -> Result<Answers, Malformed>
    ensures { IfOk result (λ said. SaysAnswers said words.old.rest words.new.rest) }
{
    let there = words.word()?.parse()?;
    let back = words.word()?.parse()?;
    let equal_there = equality(words.word()?)?;
    let equal_back = equality(words.word()?)?;
    Ok(Answers {
        there: Answer {
            comparison: there,
            equal: equal_there,
        },
        back: Answer {
            comparison: back,
            equal: equal_back,
        },
    })
}

// `nan`, `infinite CLAMPED` or `BITS DIRECTION FLAG CLAMPED`.
fn conversion(words: &mut Words<'_>) -> Result<Conversion, Malformed>
    ensures { IfOk result (λ said. SaysConversion said words.old.rest words.new.rest) }
{
    match words.word()? {
        "nan" => Ok(Conversion::NoNumber),
        "infinite" => {
            let clamped = hex(words.word()?)?;
            Ok(Conversion::Endless(clamped))
        }
        word => {
            let bits = hex(word)?;
            let direction = words.word()?.parse()?;
            let over = flag(words.word()?)?;
            let clamped = hex(words.word()?)?;
            Ok(Conversion::Finite(bits, direction, over, clamped))
        }
    }
}

// FLOAT BITS.
fn float(words: &mut Words<'_>) -> Result<Side<FormatName>, Malformed>
    ensures { IfOk result (λ side. SaysFloat side words.old.rest words.new.rest) }
{
    let form = words.word()?.parse()?;
    let bits = hex(words.word()?)?;
    Ok(Side { form, bits })
}

// i|u WIDTH FRACTION, or the name of a float's format.
fn form(words: &mut Words<'_>) -> Result<FormName, NoClaim>
    ensures { IfOk result (λ said. SaysForm said words.old.rest words.new.rest) }
{
    let word = words.word()?;
    if let Ok(format) = word.parse() {
        return Ok(FormName::Float(format));
    }
    let signed = signedness(word)?;
    let width = words.word()?.parse()?;
    let fraction = words.word()?.parse()?;
    let fixed = Fixed::new(signed, width, fraction)?;
    Ok(FormName::Fixed(fixed))
}

// i|u WIDTH FRACTION.
fn fixed(words: &mut Words<'_>) -> Result<Fixed, NoClaim>
    ensures { IfOk result (λ said. SaysForm (FormName.Fixed said) words.old.rest words.new.rest) }
{
    match form(words)? {
        FormName::Fixed(fixed) => Ok(fixed),
        FormName::Float(_) => Err(NoClaim::Malformed),
    }
}

// FLOAT BITS READING.
fn kind(words: &mut Words<'_>) -> Result<Claim, NoClaim>
    ensures { Read LineKind.Kind words.old.rest result }
{
    let float = float(words)?;
    let reading = reading(words)?;
    words.end()?;
    Ok(Claim::Kind(float, reading))
}

// i|u WIDTH BITS SIGN SIZE. Whether there is the form is seen once all is read.
fn neg_abs(words: &mut Words<'_>) -> Result<Claim, NoClaim>
    ensures { Read LineKind.NegAbs words.old.rest result }
{
    let signed = signedness(words.word()?)?;
    let width = words.word()?.parse()?;
    let bits = hex(words.word()?)?;
    let negative = sign(words.word()?)?;
    let size = hex(words.word()?)?;
    words.end()?;
    let form = Fixed::new(signed, width, 0)?;
    let load = Load {
        negative,
        size,
        scale: 0,
    };
    Ok(Claim::NegAbs(Side { form, bits }, load))
}

// i|u WIDTH FRACTION BITS FLOAT BITS ANSWERS. Whether there is the form is seen once all is read.
fn compare(words: &mut Words<'_>) -> Result<Claim, NoClaim>
    ensures { Read LineKind.Compare words.old.rest result }
{
    let signed = signedness(words.word()?)?;
    let width = words.word()?.parse()?;
    let fraction = words.word()?.parse()?;
    let bits = hex(words.word()?)?;
    let float = float(words)?;
    let answers = both_answers(words)?;
    words.end()?;
    let form = Fixed::new(signed, width, fraction)?;
    Ok(Claim::Compare(Side { form, bits }, float, answers))
}

// i|u WIDTH FRACTION BITS FLOAT BITS.
fn to_float(words: &mut Words<'_>) -> Result<Claim, NoClaim>
    ensures { IfOk result (λ claim. Claims LineKind.ToFloat words.old.rest claim) }
{
    let form = fixed(words)?;
    let bits = hex(words.word()?)?;
    let float = float(words)?;
    words.end()?;
    Ok(Claim::ToFloat(Side { form, bits }, float))
}

// FLOAT BITS i|u WIDTH FRACTION ANSWER.
fn from_float(words: &mut Words<'_>) -> Result<Claim, NoClaim>
    ensures { IfOk result (λ claim. Claims LineKind.FromFloat words.old.rest claim) }
{
    let float = float(words)?;
    let fixed = fixed(words)?;
    let said = conversion(words)?;
    words.end()?;
    Ok(Claim::FromFloat(float, fixed, said))
}

// FORM BITS FORM ANSWER.
fn convert(words: &mut Words<'_>) -> Result<Claim, NoClaim>
    ensures { IfOk result (λ claim. Claims LineKind.Convert words.old.rest claim) }
{
    let source = form(words)?;
    let bits = hex(words.word()?)?;
    let target = form(words)?;
    let said = conversion(words)?;
    words.end()?;
    Ok(Claim::Convert(Side { form: source, bits }, target, said))
}

// What a line of a kind claims by the words after the first.
pub fn claim_of(sort: LineKind, words: &mut Words<'_>) -> Result<Claim, NoClaim>
    ensures { Read sort words.old.rest result }
{
    match sort {
        LineKind::Kind => kind(words),
        LineKind::NegAbs => neg_abs(words),
        LineKind::Compare => compare(words),
        LineKind::ToFloat => to_float(words),
        LineKind::FromFloat => from_float(words),
        LineKind::Convert => convert(words),
    }
}
