// Whether the forms answer as a line says.
ghost use Rattle.std.specs.Prelude.{◌≡◌, Ok, Decides};
ghost use Rattle.lists.specs.Answers.{Answered, BothAnswered};

use forms::{Comparison, Load, Reading, Source, cmp};

// A form, and bits of it.
#[derive(Clone, Copy, Debug, PartialEq, Eq, Hash)]
pub struct Side<F> {
    pub form: F,
    pub bits: u64,
}

// Whether two loads have the same sign, size and scale.
fn same_load(left: Load, right: Load) -> bool
    ensures { Decides result (left ≡ right) }
{
    left.negative == right.negative && left.size == right.size && left.scale == right.scale
}

// Whether two readings are the same, loads in each part.
fn same_reading(left: Reading, right: Reading) -> bool
    ensures { Decides result (left ≡ right) }
{
    match (left, right) {
        (Reading::Finite(left), Reading::Finite(right)) => same_load(left, right),
        (Reading::NoNumber, Reading::NoNumber) => true,
        (Reading::EndlessUp, Reading::EndlessUp) => true,
        (Reading::EndlessDown, Reading::EndlessDown) => true,
        _ => false,
    }
}

// Whether the bits are read as that.
pub fn reads_as<S: Source>(side: &Side<S>, reading: Reading) -> bool
    ensures { Decides result (S.Source.reads side.now.form side.now.bits ≡ Ok reading) }
{
    match side.form.read(side.bits) {
        Ok(read) => same_reading(read, reading),
        Err(_) => false,
    }
}

// How two sides compare, and whether they are equal.
#[derive(Clone, Copy, Debug, PartialEq, Eq, Hash)]
pub struct Answer {
    pub comparison: Comparison,
    pub equal: bool,
}

// The answer for two sides, and for the same with left and right exchanged.
#[derive(Clone, Copy, Debug, PartialEq, Eq, Hash)]
pub struct Answers {
    pub there: Answer,
    pub back: Answer,
}

// Whether what the left bits are read as compares so to what the right bits are read as.
fn compares_as<A: Source, B: Source>(left: &Side<A>, right: &Side<B>, answer: Answer) -> bool
    ensures { Decides result (Answered (A.Source.reads left.now.form left.now.bits) (B.Source.reads right.now.form right.now.bits) answer) }
{
    cmp::compare(&left.form, left.bits, &right.form, right.bits) == Ok(answer.comparison)
        && cmp::equal(&left.form, left.bits, &right.form, right.bits) == Ok(answer.equal)
}

// Whether the sides compare so, there and back.
pub fn both_ways<A: Source, B: Source>(left: &Side<A>, right: &Side<B>, answers: Answers) -> bool
    ensures { Decides result (BothAnswered (A.Source.reads left.now.form left.now.bits) (B.Source.reads right.now.form right.now.bits) answers) }
{
    compares_as(left, right, answers.there) && compares_as(right, left, answers.back)
}
