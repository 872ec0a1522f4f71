// A line of the list as words, one space between two, and what each kind of word says.
ghost use Rattle.std.specs.Prelude.{◌≡◌, not, is_some, is_ok, Some};
ghost use Rattle.std.specs.Int.{w32};
ghost use Rattle.std.specs.Option.{option_map};
ghost use Rattle.std.specs.Str.Parse.{ParsesUnsigned, ParsesSigned};
ghost use Rattle.lists.specs.Cuts.{Takes};
ghost use Rattle.forms.specs.Spellings.{Spells};
ghost use Rattle.lists.specs.Spellings.{sign_word, signedness_word, equality_word, flag_word};

use forms::UnknownWord;
use std::num::ParseIntError;
use thiserror::Error;

// The line does not say what a line of its kind says.
#[derive(Clone, Copy, Debug, PartialEq, Eq, Hash, Error)]
#[error("the line does not say what a line of its kind says")]
pub struct Malformed;

impl From<ParseIntError> for Malformed {
    fn from(_error: ParseIntError) -> Malformed {
        Malformed
    }
}

impl From<UnknownWord> for Malformed {
    fn from(_error: UnknownWord) -> Malformed {
        Malformed
    }
}

// The words of a line that are still to be read.
#[derive(Drop)]
pub struct Words<'a> {
    // none once the last word is read
    rest: Option<&'a str>,
}

impl<'a> Words<'a> {
    pub fn new(line: &'a str) -> Words<'a>
        ensures { option_map (λ x. x.now) result.rest ≡ Some line.now }
    {
        Words { rest: Some(line) }
    }

    // The next word, which is empty where two spaces meet.
    pub fn word(&mut self) -> Result<&'a str, Malformed>
        ensures { Takes self.old.rest result self.new.rest }
    {
        let Some(line) = self.rest else {
            return Err(Malformed);
        };
        match line.split_once(' ') {
            Some((word, rest)) => {
                self.rest = Some(rest);
                Ok(word)
            }
            None => {
                self.rest = None;
                Ok(line)
            }
        }
    }

    // Refused unless every word is read.
    pub fn end(&self) -> Result<(), Malformed>
        ensures { is_ok result ≡ not (is_some self.now.rest) }
    {
        match self.rest {
            None => Ok(()),
            Some(_) => Err(Malformed),
        }
    }
}

// A whole number below 2^64 in hexadecimal digits; a plus may stand before them.
pub fn hex(word: &str) -> Result<u64, Malformed>
    ensures { ParsesUnsigned 64 16 word.now result }
{
    Ok(u64::from_str_radix(word, 16)?)
}

// `-` where a number is below 0, else `+`.
pub fn sign(word: &str) -> Result<bool, Malformed>
    ensures { Spells sign_word word.now result }
{
    match word {
        "+" => Ok(false),
        "-" => Ok(true),
        _ => Err(Malformed),
    }
}

// `i` for a form in two's complement, `u` for an unsigned one.
pub fn signedness(word: &str) -> Result<bool, Malformed>
    ensures { Spells signedness_word word.now result }
{
    match word {
        "i" => Ok(true),
        "u" => Ok(false),
        _ => Err(Malformed),
    }
}

// Whether both sides are equal.
pub fn equality(word: &str) -> Result<bool, Malformed>
    ensures { Spells equality_word word.now result }
{
    match word {
        "eq" => Ok(true),
        "ne" => Ok(false),
        _ => Err(Malformed),
    }
}

// Whether an answer is flagged.
pub fn flag(word: &str) -> Result<bool, Malformed>
    ensures { Spells flag_word word.now result }
{
    match word {
        "over" => Ok(true),
        "fits" => Ok(false),
        _ => Err(Malformed),
    }
}
