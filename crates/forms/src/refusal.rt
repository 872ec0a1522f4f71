ghost use Rattle.std.specs.Prelude.{◌≡◌, ◌+◌, min, Some};
ghost use Rattle.forms.specs.declared.refusal.Cause.{Cause};
ghost use Rattle.forms.specs.Refusals.{number_of};
ghost use Rattle.forms.specs.Spellings.{cause_text, refusal_text};

use std::error::Error;
use std::fmt;

// Why a call was refused. The last three are kept for calls that are to stand on this crate; none here gives them.
#[derive(Clone, Copy, Debug, PartialEq, Eq, Hash)]
pub enum Cause {
    // there is no form of the width and fraction that were asked for
    UnlawfulForm = 1,
    // a purchase layer's factor is not 2, 4 or 8
    UnlawfulFactor = 2,
    // the bits are 2^width or more
    BitsTooWide = 3,
    // a purchase layer would give a load other than 0 a scale below -1,000
    ScaleTooLow = 6,
    // the bits stand for no number
    NoNumber = 4,
    // the bits stand for something endless, where a load is needed
    Endless = 5,
    // an exact sum has taken as many loads as it may
    ColumnFull = 7,
    // a line of text is not well formed
    MalformedLine = 8,
    // the buffer for an answer is too short
    BufferTooShort = 9,
}

impl Cause {
    // The number by which people know this cause. No other cause has it.
    pub fn number(self) -> u8
        ensures value { result ≡ number_of self }
        ensures alone { (other : Cause) → number_of other ≡ result → other ≡ self }
    {
        self as u8
    }
}

// The cause in words.
impl fmt::Display for Cause {
    ghost output = { λ c. Some (cause_text c) };

    fn fmt<W: fmt::Write>(&self, f: &mut fmt::Formatter<W>) -> fmt::Result {
        f.write_str(match self {
            Cause::UnlawfulForm => "there is no fixed form of that width and fraction",
            Cause::UnlawfulFactor => "a purchase counts 2, 4 or 8 times",
            Cause::BitsTooWide => "there are more bits than the form has",
            Cause::NoNumber => "the bits stand for no number",
            Cause::Endless => "the bits stand for something endless",
            Cause::ScaleTooLow => "the load is out of range under that purchase",
            Cause::ColumnFull => "the column is full",
            Cause::MalformedLine => "the line is malformed",
            Cause::BufferTooShort => "the answer buffer is too short",
        })
    }
}

// A call's refusal: its cause, and its depth, which counts the purchase layers that it came up through, 65,535 at most.
#[derive(Clone, Copy, Debug, PartialEq, Eq, Hash)]
pub struct Refusal {
    pub cause: Cause,
    pub depth: u16,
}

impl Refusal {
    // A refusal of a call's own.
    pub fn new(cause: Cause) -> Refusal
        ensures { result ≡ record { cause = cause; depth = 0 } }
    {
        Refusal { cause, depth: 0 }
    }

    // The same refusal, one layer further up.
    pub fn deeper(self) -> Refusal
        ensures { result ≡ record { cause = self.cause; depth = min (self.depth + 1) 65535 } }
    {
        Refusal {
            depth: self.depth.saturating_add(1),
            ..self
        }
    }
}

// The refusal in words: its number and depth, and what they mean.
impl fmt::Display for Refusal {
    ghost output = { λ r. Some (refusal_text r) };

    fn fmt<W: fmt::Write>(&self, f: &mut fmt::Formatter<W>) -> fmt::Result {
        let number = self.cause.number();
        let depth = self.depth;
        let cause = self.cause;
        write!(f, "refused {number} at depth {depth}: {cause}")
    }
}

impl Error for Refusal {}
