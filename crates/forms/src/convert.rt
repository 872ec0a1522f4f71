// Conversion of what a source reads into a form.
ghost use Rattle.std.specs.Prelude.{◌≡◌};
ghost use Rattle.forms.specs.Refusals.{told};
ghost use Rattle.forms.specs.Loads.{weight, worth};
ghost use Rattle.forms.specs.Forms.{form_of};
ghost use Rattle.forms.specs.Conversions.{facing, answered, plain as plain_of, clamped as clamped_of, converted, converted_clamped, NearestAnswer, NearestConversion};
ghost use Rattle.forms.specs.Roundings.{turned};

use crate::direction::Direction;
use crate::form::Form;
use crate::load::Reading;
use crate::ranged::{NonZeroLoad, RangedLoad};
use crate::refusal::{Cause, Refusal};
use crate::round;
use crate::source::Source;

// How an answer with these bits stands to the exact load: an infinite one is above or below every load, and any other stands as `direction` says.
#[inline(always)]
fn facing<F: Form>(form: &F, bits: u64, direction: Direction) -> Direction
    ensures { result ≡ facing (F.Source.reads form.now bits) direction }
{
    match form.read(bits) {
        Ok(Reading::EndlessUp) => Direction::Above,
        Ok(Reading::EndlessDown) => Direction::Below,
        _ => direction,
    }
}

// The direction of amounts with a sign, from that of their sizes.
#[inline(always)]
fn turned(negative: bool, direction: Direction) -> Direction
    ensures { result ≡ turned negative direction }
{
    match direction {
        Direction::Below if negative => Direction::Above,
        Direction::Above if negative => Direction::Below,
        _ => direction,
    }
}

// A load other than 0 in a form: bits, direction and flag.
#[inline(always)]
fn write_into<F: Form>(exact: NonZeroLoad, form: &F) -> (u64, Direction, bool)
    ensures { result ≡ answered (form_of (F.Source.reads form.now) (F.Form.writing form.now)) exact.load.negative (weight exact.load) }
{
    let negative = exact.load.negative;
    let e = round::exponent(exact);
    let grains = round::rounded(exact, form.grain(e));
    let (bits, over) = form.write(negative, e, grains.low, grains.more);
    let direction = turned(negative, grains.direction);
    if over {
        (bits, facing(form, bits, direction), true)
    } else {
        (bits, direction, false)
    }
}

// A load in a form.
#[inline(always)]
fn load_into<F: Form>(exact: RangedLoad, form: &F) -> (u64, Direction, bool)
    ensures value { result ≡ plain_of (form_of (F.Source.reads form.now) (F.Form.writing form.now)) (worth exact.load) }
    ensures nearest { NearestAnswer (form_of (F.Source.reads form.now) (F.Form.writing form.now)) (worth exact.load) result }
{
    let load = exact.load;
    if load.size == 0 {
        (form.zero(), Direction::Equal, false)
    } else {
        write_into(NonZeroLoad { load }, form)
    }
}

// The same, clamped.
#[inline(always)]
fn clamped_into<F: Form>(exact: RangedLoad, form: &F) -> u64
    ensures { result ≡ clamped_of (form_of (F.Source.reads form.now) (F.Form.writing form.now)) (worth exact.load) }
{
    let load = exact.load;
    let (bits, _, over) = load_into(exact, form);
    if over { form.edge(load.negative) } else { bits }
}

// What a source reads, in a form: bits, how they stand to the exact load before any wrap, and a flag, which is set where the form does not show the
// load that the exact one is rounded to. Of what the form shows, nothing lies nearer to the exact load than an unflagged answer.
// The reading's refusal comes first, then that of no number, then that of something endless.
pub fn plain<S: Source, F: Form>(
    source: &S,
    bits: u64,
    form: &F,
) -> Result<(u64, Direction, bool), Refusal>
    ensures value { told result ≡ converted (form_of (F.Source.reads form.now) (F.Form.writing form.now)) (S.Source.reads source.now bits) }
    ensures nearest { NearestConversion (form_of (F.Source.reads form.now) (F.Form.writing form.now)) (S.Source.reads source.now bits) result }
{
    match source.read(bits)? {
        Reading::NoNumber => Err(Refusal::new(Cause::NoNumber)),
        Reading::EndlessUp => Err(Refusal::new(Cause::Endless)),
        Reading::EndlessDown => Err(Refusal::new(Cause::Endless)),
        Reading::Finite(load) => Ok(load_into(RangedLoad { load }, form)),
    }
}

// The same, clamped: bits alone, which are the edge of the load's sign where the plain answer is flagged, and the edge of its sign for something
// endless.
pub fn clamped<S: Source, F: Form>(source: &S, bits: u64, form: &F) -> Result<u64, Refusal>
    ensures { told result ≡ converted_clamped (form_of (F.Source.reads form.now) (F.Form.writing form.now)) (S.Source.reads source.now bits) }
{
    match source.read(bits)? {
        Reading::NoNumber => Err(Refusal::new(Cause::NoNumber)),
        Reading::EndlessUp => Ok(form.edge(false)),
        Reading::EndlessDown => Ok(form.edge(true)),
        Reading::Finite(load) => Ok(clamped_into(RangedLoad { load }, form)),
    }
}
