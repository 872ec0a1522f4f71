// A load rounded to a grain, on its 64-bit size alone: ported from `to_float_kind` and `from_to_float_helper` in float_helper.rs of the Rust crate
// `fixed`, which round a float to a fixed number's last digit and a fixed number to a float's.
ghost use Rattle.std.specs.Prelude.{◌≡◌, ◌+◌, ◌*◌, ◌%◌, ◌^◌, ◌<◌, ◌&&◌, ◌||◌, ◌==◌, nat_eq, nat_lt};
ghost use Rattle.forms.specs.Loads.{weight};
ghost use Rattle.forms.specs.Amounts.{exponent, unit, Within, InRange};
ghost use Rattle.forms.specs.Roundings.{rounded_to};

use crate::direction::Direction;
use crate::ranged::NonZeroLoad;
use crate::words;

// How many grains a size is rounded to: a whole number M.
#[derive(Clone, Copy)]
pub(crate) struct Grains {
    // the lowest 64 binary digits of M
    pub(crate) low: u64,
    // whether M is 2^64 or more
    pub(crate) more: bool,
    // how M grains stand to the size
    pub(crate) direction: Direction,
}

// The exponent of a load other than 0.
#[inline(always)]
pub(crate) fn exponent(exact: NonZeroLoad) -> i32
    ensures value { result ≡ exponent (weight exact.load) }
    ensures within { Within (weight exact.load) result }
    ensures ranged { InRange result }
{
    63 - exact.load.size.leading_zeros() as i32 - exact.load.scale
}

// Whether what is removed moves the whole number that is left up: where it is more than half a grain, the tie, or just that and the number is odd.
fn rounds_up(whole: u64, removed_bits: u64, tie: u64) -> bool
    ensures { result ≡ (nat_lt tie removed_bits || (nat_eq removed_bits tie && whole % 2 == 1)) }
{
    removed_bits > tie || (removed_bits == tie && whole % 2 == 1)
}

// A whole number, and the bits removed below it, rounded to the nearest.
fn nearest(whole: u64, removed_bits: u64, tie: u64) -> Grains
    requires room { whole < 2 ^ 63 }
    requires short { removed_bits < 2 * tie }
    ensures { result ≡ rounded_to (2 * tie) (whole * (2 * tie) + removed_bits) }
{
    if rounds_up(whole, removed_bits, tie) {
        Grains {
            low: whole + 1,
            more: false,
            direction: Direction::Above,
        }
    } else {
        Grains {
            low: whole,
            more: false,
            direction: if removed_bits == 0 {
                Direction::Equal
            } else {
                Direction::Below
            },
        }
    }
}

// A size in grains of 2^(place + 1).
fn lowered(size: u64, place: u32) -> Grains
    requires { place < 64 }
    ensures { result ≡ rounded_to (2 * 2 ^ place) size }
{
    nearest(
        size >> place >> 1,
        words::low_digits(size, place + 1),
        1 << place,
    )
}

// A size times 2^by.
fn raised(size: u64, by: u32) -> Grains
    requires { 0 < size }
    ensures { result ≡ rounded_to 1 (size * 2 ^ by) }
{
    if by < 64 {
        Grains {
            low: size << by,
            more: size.leading_zeros() < by,
            direction: Direction::Equal,
        }
    } else {
        Grains {
            low: 0,
            more: true,
            direction: Direction::Equal,
        }
    }
}

// A load other than 0, rounded to grains of 2^grain.
#[inline(always)]
pub(crate) fn rounded(exact: NonZeroLoad, grain: i32) -> Grains
    requires { InRange grain }
    ensures { result ≡ rounded_to (unit grain) (weight exact.load) }
{
    // how many digits of the size lie below the grain
    let need_to_shr = grain + exact.load.scale;
    if need_to_shr <= 0 {
        raised(exact.load.size, (-need_to_shr) as u32)
    } else if need_to_shr <= 64 {
        lowered(exact.load.size, (need_to_shr - 1) as u32)
    } else {
        Grains {
            low: 0,
            more: false,
            direction: Direction::Below,
        }
    }
}
