// Whether the forms convert as a line says.
ghost use Rattle.std.specs.Prelude.{◌≡◌, Decides};
ghost use Rattle.forms.specs.Refusals.{told};
ghost use Rattle.forms.specs.Forms.{form_of};
ghost use Rattle.lists.specs.Conversions.{PlainIs, ClampedIs, Converts};

use crate::answers::Side;
use forms::{Cause, Direction, Form, Refusal, Source, convert};

// What a line says that a conversion answers, plain and clamped.
#[derive(Clone, Copy, Debug, PartialEq, Eq, Hash)]
pub enum Conversion {
    // both are refused, since there is no number
    NoNumber,
    // plain is refused, since it is endless; clamped has these bits
    Endless(u64),
    // plain has bits, direction and flag; clamped has the last bits
    Finite(u64, Direction, bool, u64),
    // plain has these bits; all else is not told
    Bits(u64),
}

// Whether the plain answer is as the line says.
fn plain_is(answer: Result<(u64, Direction, bool), Refusal>, said: Conversion) -> bool
    ensures { Decides result (PlainIs (told answer) said) }
{
    match said {
        Conversion::NoNumber => answer == Err(Refusal::new(Cause::NoNumber)),
        Conversion::Endless(_) => answer == Err(Refusal::new(Cause::Endless)),
        Conversion::Finite(bits, direction, over, _) => answer == Ok((bits, direction, over)),
        Conversion::Bits(due) => matches!(answer, Ok((bits, _, _)) if bits == due),
    }
}

// Whether the clamped answer is as the line says.
fn clamped_is(answer: Result<u64, Refusal>, said: Conversion) -> bool
    ensures { Decides result (ClampedIs (told answer) said) }
{
    match said {
        Conversion::NoNumber => answer == Err(Refusal::new(Cause::NoNumber)),
        Conversion::Endless(due) | Conversion::Finite(_, _, _, due) => answer == Ok(due),
        Conversion::Bits(_) => true,
    }
}

// Whether what the bits are read as converts so into a form.
pub fn converts<S: Source, F: Form>(source: &Side<S>, form: &F, said: Conversion) -> bool
    ensures { Decides result (Converts (form_of (F.Source.reads form.now) (F.Form.writing form.now)) (S.Source.reads source.now.form source.now.bits) said) }
{
    let plain = convert::plain(&source.form, source.bits, form);
    let clamped = convert::clamped(&source.form, source.bits, form);
    plain_is(plain, said) && clamped_is(clamped, said)
}
