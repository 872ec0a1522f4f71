// The comparison of readings, whatever forms they come in: ported from cmp.rs of the Rust crate `fixed`. Its `Value` is a `Load` here, and every size
// has 64 bits. The names that begin with `float` are the crate's, which compares a fixed number with a float; here both sides may be either. What the crate answers
// to `==` is `equal` here, which has functions of its own, each beside the comparison's: they take less time than to ask for the comparison.
ghost use Rattle.std.specs.Prelude.{◌≡◌, ◌*◌, ◌^◌, ◌≤◌, pos, ◌≤ℤ◌, Some, None, nat_eq};
ghost use Rattle.forms.specs.declared.load.Reading.{Reading};
ghost use Rattle.forms.specs.Refusals.{told};
ghost use Rattle.forms.specs.Loads.{SoundReading, worth};
ghost use Rattle.forms.specs.Comparisons.{from_ordering, ordered, against, compared, equality, is_equal, mirrored};
ghost use Rattle.forms.specs.Spellings.{Spells, comparison_word};

use crate::load::Reading;
use crate::ranged::RangedLoad;
use crate::refusal::Refusal;
use crate::source::Source;
use crate::text::UnknownWord;
use std::cmp::Ordering;
use std::fmt;
use std::str::FromStr;

// How one reading stands to another; unordered where either is no number.
#[derive(Clone, Copy, Debug, PartialEq, Eq, Hash)]
pub enum Comparison {
    Less,
    Equal,
    More,
    Unordered,
}

impl Comparison {
    // The comparison with left and right exchanged.
    pub fn reverse(self) -> Comparison
        ensures value { result ≡ mirrored self }
        ensures exchanged { (x y : Reading) → self ≡ against x y → result ≡ against y x }
    {
        match self {
            Comparison::Less => Comparison::More,
            Comparison::Equal => Comparison::Equal,
            Comparison::More => Comparison::Less,
            Comparison::Unordered => Comparison::Unordered,
        }
    }
}

// The comparison of two numbers, from the library's order of them.
impl From<Ordering> for Comparison {
    ghost from_gives = { λ ordering result. result ≡ from_ordering ordering };

    fn from(ordering: Ordering) -> Comparison {
        match ordering {
            Ordering::Less => Comparison::Less,
            Ordering::Equal => Comparison::Equal,
            Ordering::Greater => Comparison::More,
        }
    }
}

impl fmt::Display for Comparison {
    ghost output = { λ c. Some (comparison_word c) };

    fn fmt<W: fmt::Write>(&self, f: &mut fmt::Formatter<W>) -> fmt::Result {
        f.write_str(match self {
            Comparison::Less => "less",
            Comparison::Equal => "equal",
            Comparison::More => "more",
            Comparison::Unordered => "none",
        })
    }
}

// From the word that is printed for it.
impl FromStr for Comparison {
    type Err = UnknownWord;

    ghost from_str_gives = { Spells comparison_word };

    fn from_str(word: &str) -> Result<Comparison, UnknownWord> {
        match word {
            "less" => Ok(Comparison::Less),
            "equal" => Ok(Comparison::Equal),
            "more" => Ok(Comparison::More),
            "none" => Ok(Comparison::Unordered),
            _ => Err(UnknownWord),
        }
    }
}

// The right size moved up to the left load's scale; none where 64 bits do not hold it.
#[inline(always)]
fn float_rhs_shl(rhs_size: u64, rhs_shl: u32) -> Option<u64>
    ensures { elim result [ Some size ↦ size ≡ rhs_size * 2 ^ rhs_shl | None ↦ 2 ^ 64 ≤ rhs_size * 2 ^ rhs_shl ] }
{
    if rhs_size == 0 {
        return Some(0);
    }
    match rhs_size.checked_shl(rhs_shl) {
        Some(shifted) if shifted >> rhs_shl == rhs_size => Some(shifted),
        Some(_) => None,
        None => None,
    }
}

// Whether two sizes are equal, the right one moved up.
#[inline(always)]
fn eq_sizes(lhs_size: u64, rhs_size: u64, rhs_shl: u32) -> bool
    ensures { result ≡ nat_eq lhs_size (rhs_size * 2 ^ rhs_shl) }
{
    match float_rhs_shl(rhs_size, rhs_shl) {
        None => false,
        Some(shifted) => lhs_size == shifted,
    }
}

// The comparison of two sizes, the right one moved up.
#[inline(always)]
fn cmp_sizes(lhs_size: u64, rhs_size: u64, rhs_shl: u32) -> Comparison
    ensures { result ≡ ordered (pos lhs_size) (pos (rhs_size * 2 ^ rhs_shl)) }
{
    match float_rhs_shl(rhs_size, rhs_shl) {
        // the right size is so large that it does not fit
        None => Comparison::Less,
        Some(shifted) => lhs_size.cmp(&shifted).into(),
    }
}

// Whether two loads are worth the same, the left one no coarser than the right one.
#[inline(always)]
fn eq_aligned(lhs: RangedLoad, rhs: RangedLoad) -> bool
    requires { rhs.load.scale ≤ℤ lhs.load.scale }
    ensures { result ≡ is_equal (ordered (worth lhs.load) (worth rhs.load)) }
{
    if lhs.load.negative != rhs.load.negative {
        return false;
    }
    eq_sizes(
        lhs.load.size,
        rhs.load.size,
        (lhs.load.scale - rhs.load.scale) as u32,
    )
}

// The comparison of two loads, the left one no coarser than the right one.
#[inline(always)]
fn cmp_aligned(lhs: RangedLoad, rhs: RangedLoad) -> Comparison
    requires { rhs.load.scale ≤ℤ lhs.load.scale }
    ensures { result ≡ ordered (worth lhs.load) (worth rhs.load) }
{
    if lhs.load.negative != rhs.load.negative {
        return if lhs.load.negative {
            Comparison::Less
        } else {
            Comparison::More
        };
    }
    let sizes = cmp_sizes(
        lhs.load.size,
        rhs.load.size,
        (lhs.load.scale - rhs.load.scale) as u32,
    );
    if lhs.load.negative {
        sizes.reverse()
    } else {
        sizes
    }
}

// Whether two loads are worth the same.
#[inline(always)]
fn float_eq_even(lhs: RangedLoad, rhs: RangedLoad) -> bool
    ensures { result ≡ is_equal (ordered (worth lhs.load) (worth rhs.load)) }
{
    if lhs.load.scale < rhs.load.scale {
        eq_aligned(rhs, lhs)
    } else {
        eq_aligned(lhs, rhs)
    }
}

// The comparison of two loads.
#[inline(always)]
fn float_cmp_even(lhs: RangedLoad, rhs: RangedLoad) -> Comparison
    ensures { result ≡ ordered (worth lhs.load) (worth rhs.load) }
{
    if lhs.load.scale < rhs.load.scale {
        cmp_aligned(rhs, lhs).reverse()
    } else {
        cmp_aligned(lhs, rhs)
    }
}

// Whether two readings are equal: endless ones are equal to themselves, and no number is equal to nothing.
#[inline(always)]
fn eq(lhs: Reading, rhs: Reading) -> bool
    requires { (SoundReading lhs) × (SoundReading rhs) }
    ensures { result ≡ is_equal (against lhs rhs) }
{
    match (lhs, rhs) {
        (Reading::Finite(lhs), Reading::Finite(rhs)) => {
            float_eq_even(RangedLoad { load: lhs }, RangedLoad { load: rhs })
        }
        (Reading::EndlessUp, Reading::EndlessUp) => true,
        (Reading::EndlessDown, Reading::EndlessDown) => true,
        _ => false,
    }
}

// The comparison of two readings.
#[inline(always)]
fn partial_cmp(lhs: Reading, rhs: Reading) -> Comparison
    requires { (SoundReading lhs) × (SoundReading rhs) }
    ensures { result ≡ against lhs rhs }
{
    match (lhs, rhs) {
        (Reading::NoNumber, _) => Comparison::Unordered,
        (_, Reading::NoNumber) => Comparison::Unordered,
        (Reading::Finite(lhs), Reading::Finite(rhs)) => {
            float_cmp_even(RangedLoad { load: lhs }, RangedLoad { load: rhs })
        }
        (Reading::EndlessUp, Reading::EndlessUp) => Comparison::Equal,
        (Reading::EndlessDown, Reading::EndlessDown) => Comparison::Equal,
        (Reading::EndlessUp, _) => Comparison::More,
        (Reading::EndlessDown, _) => Comparison::Less,
        (_, Reading::EndlessUp) => Comparison::Less,
        (_, Reading::EndlessDown) => Comparison::More,
    }
}

// How what the left bits are read as stands to what the right bits are read as. The left reading's refusal comes first, then the right one's.
#[inline(always)]
pub fn compare<A: Source, B: Source>(
    left: &A,
    left_bits: u64,
    right: &B,
    right_bits: u64,
) -> Result<Comparison, Refusal>
    ensures { told result ≡ compared (A.Source.reads left.now left_bits) (B.Source.reads right.now right_bits) }
{
    let lhs = left.read(left_bits)?;
    let rhs = right.read(right_bits)?;
    Ok(partial_cmp(lhs, rhs))
}

// Whether both are read as the same: the comparison's answer, equal or not.
#[inline(always)]
pub fn equal<A: Source, B: Source>(
    left: &A,
    left_bits: u64,
    right: &B,
    right_bits: u64,
) -> Result<bool, Refusal>
    ensures { told result ≡ equality (compared (A.Source.reads left.now left_bits) (B.Source.reads right.now right_bits)) }
{
    let lhs = left.read(left_bits)?;
    let rhs = right.read(right_bits)?;
    Ok(eq(lhs, rhs))
}
