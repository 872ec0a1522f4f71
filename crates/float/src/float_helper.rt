// A float taken apart and put together: ported from float_helper.rs of the Rust crate `fixed`, whose constants EXP_MAX and EXP_MIN are functions of
// the format.
ghost use Rattle.std.specs.Prelude.{◌≡◌, ◌+◌, ◌-◌, ◌^◌, ◌<◌, ◌≤◌, pos, negsuc, ◌-ℤ◌, ◌≤ℤ◌, ◌<ℤ◌, if◌then◌else◌, nat_eq, nat_lt};
ghost use Rattle.forms.specs.declared.load.Reading.TheVariants.{NoNumber};
ghost use Rattle.std.specs.Int.{int_max};
ghost use Rattle.forms.specs.Loads.{nat_of, endless};
ghost use Rattle.forms.specs.Amounts.{InRange};
ghost use Rattle.float.specs.Formats.{exp_max, exp_min};
ghost use Rattle.float.specs.Floats.{sign_of, biased_of, trailing_of, scaled, finite, float_of};
ghost use Rattle.float.specs.Writings.{float_grain, sign_bit, infinity, packed, float_writes};

use crate::format::Format;
use forms::{Load, Reading, words};
use std::marker::PhantomData;

// The greatest exponent of a number, which is the bias of the exponent field.
fn exp_max<F: Format>() -> i32
    ensures { result ≡ pos (exp_max F.WIDTH F.PREC) }
{
    words::ones(F::WIDTH - F::PREC - 1) as i32
}

// The least exponent of a full significand.
fn exp_min<F: Format>() -> i32
    ensures { result ≡ exp_min F.WIDTH F.PREC }
{
    1 - exp_max::<F>()
}

// An exponent field of all ones.
fn exp_top<F: Format>() -> u64
    ensures { result ≡ 2 ^ (F.WIDTH - F.PREC) - 1 }
{
    words::ones(F::WIDTH - F::PREC)
}

// How many digits of a significand stand after the point.
fn after_point<F: Format>() -> i32
    ensures { result ≡ pos (F.PREC - 1) }
{
    F::PREC as i32 - 1
}

// A significand of PREC - 1 binary digits after the point, times 2^exp.
fn scaled<F: Format>(neg: bool, mant: u64, exp: i32) -> Reading
    requires { (negsuc 2047 ≤ℤ exp) × (exp ≤ℤ pos 2047) }
    ensures { result ≡ scaled F.PREC neg mant exp }
{
    Reading::Finite(Load::new(neg, mant, after_point::<F>() - exp))
}

// The fields of a float: the sign, the biased exponent and the trailing significand.
#[derive(Drop)]
struct Fields<F: Format> {
    neg: bool,
    biased_exp: u64,
    mant: u64,
    format: PhantomData<F>,
    ghost exponent_field: { biased_exp < 2 ^ (F.WIDTH - F.PREC) },
    ghost trailing_field: { mant < 2 ^ (F.PREC - 1) },
}

impl<F: Format> Fields<F> {
    // An exponent field of all ones: an infinity, or no number.
    fn special(&self) -> Reading
        ensures { result ≡ (if nat_eq self.now.mant 0 then endless self.now.neg else NoNumber) }
    {
        if self.mant == 0 {
            Reading::endless(self.neg)
        } else {
            Reading::NoNumber
        }
    }

    // A number: a subnormal significand has the least exponent, and a full one has its implicit digit added.
    fn finite(&self) -> Reading
        ensures { result ≡ finite F.WIDTH F.PREC self.now.neg self.now.biased_exp self.now.mant }
    {
        if self.biased_exp == 0 {
            scaled::<F>(self.neg, self.mant, exp_min::<F>())
        } else {
            scaled::<F>(
                self.neg,
                self.mant | (1 << (F::PREC - 1)),
                self.biased_exp as i32 - exp_max::<F>(),
            )
        }
    }
}

// The fields of the bits.
fn parts<F: Format>(bits: u64) -> Fields<F>
    ensures neg { result.neg ≡ sign_of F.WIDTH bits }
    ensures biased_exp { result.biased_exp ≡ biased_of F.WIDTH F.PREC bits }
    ensures mant { result.mant ≡ trailing_of F.PREC bits }
{
    Fields {
        neg: !words::fits(bits, F::WIDTH - 1),
        biased_exp: words::low_digits(bits >> (F::PREC - 1), F::WIDTH - F::PREC),
        mant: words::low_digits(bits, F::PREC - 1),
        format: PhantomData,
    }
}

// What the bits stand for.
pub(crate) fn kind<F: Format>(bits: u64) -> Reading
    ensures { result ≡ float_of F.WIDTH F.PREC bits }
{
    let fields = parts::<F>(bits);
    if fields.biased_exp == exp_top::<F>() {
        fields.special()
    } else {
        fields.finite()
    }
}

// The greater of an exponent and the least one.
fn at_least_min<F: Format>(exp: i32) -> i32
    requires { InRange exp }
    ensures { result ≡ int_max exp (exp_min F.WIDTH F.PREC) }
{
    exp.max(exp_min::<F>())
}

// The grain for an exponent: where a significand of PREC digits has its last one.
pub(crate) fn grain<F: Format>(exp: i32) -> i32
    requires { InRange exp }
    ensures { result ≡ float_grain F.WIDTH F.PREC exp }
{
    at_least_min::<F>(exp) - after_point::<F>()
}

// How far an exponent lies above the least one.
fn above_min<F: Format>(exp: i32) -> u64
    requires { InRange exp }
    ensures { result ≡ nat_of (exp -ℤ exp_min F.WIDTH F.PREC) }
{
    (at_least_min::<F>(exp) - exp_min::<F>()) as u64
}

// The sign bit, in its place.
pub(crate) fn sign_bit<F: Format>(neg: bool) -> u64
    ensures { result ≡ sign_bit F.WIDTH neg }
{
    if neg { 1 << (F::WIDTH - 1) } else { 0 }
}

// Bits under a sign.
fn with_sign<F: Format>(neg: bool, bits: u64) -> u64
    requires { bits < 2 ^ (F.WIDTH - 1) }
    ensures { result ≡ sign_bit F.WIDTH neg + bits }
{
    sign_bit::<F>(neg) + bits
}

// An exponent field over a significand.
fn packed<F: Format>(above: u64, mant: u64) -> u64
    requires { packed F.PREC above mant < 2 ^ 64 }
    ensures { result ≡ packed F.PREC above mant }
{
    (above << (F::PREC - 1)) + mant
}

// The bits of infinity, sign aside.
fn infinity<F: Format>() -> u64
    ensures { result ≡ infinity F.WIDTH F.PREC }
{
    packed::<F>(exp_top::<F>(), 0)
}

// The bits of infinity of a sign.
pub(crate) fn signed_infinity<F: Format>(neg: bool) -> u64
    ensures { result ≡ sign_bit F.WIDTH neg + infinity F.WIDTH F.PREC }
{
    with_sign::<F>(neg, infinity::<F>())
}

// Whether bits, sign aside, are those of a number.
fn is_finite<F: Format>(bits: u64) -> bool
    ensures { result ≡ nat_lt bits (infinity F.WIDTH F.PREC) }
{
    bits < infinity::<F>()
}

// The bits and the flag for a sign, an exponent and a significand, which comes rounded here: it has PREC digits, or is 2^PREC where rounding made it
// that, and has fewer digits only where the exponent is at or below the least one. What lies beyond the greatest number is infinity, and flagged.
pub(crate) fn from_to_float_helper<F: Format>(neg: bool, exp: i32, mant: u64) -> (u64, bool)
    requires ranged { InRange exp }
    requires short { mant ≤ 2 ^ F.PREC }
    requires full { exp_min F.WIDTH F.PREC <ℤ exp → 2 ^ (F.PREC - 1) ≤ mant }
    ensures { result ≡ float_writes F.WIDTH F.PREC neg exp mant }
{
    if exp > exp_max::<F>() {
        return (signed_infinity::<F>(neg), true);
    }
    let bits = packed::<F>(above_min::<F>(exp), mant);
    if is_finite::<F>(bits) {
        (with_sign::<F>(neg, bits), false)
    } else {
        (signed_infinity::<F>(neg), true)
    }
}
