ghost use Rattle.std.specs.Prelude.{Some};
ghost use Rattle.forms.specs.Spellings.{Spells, direction_word};

use crate::text::UnknownWord;
use std::fmt;
use std::str::FromStr;

// How an answer stands to the exact load. An infinite answer is above every load, or below.
#[derive(Clone, Copy, Debug, PartialEq, Eq, Hash)]
pub enum Direction {
    Below,
    Equal,
    Above,
}

impl fmt::Display for Direction {
    ghost output = { λ d. Some (direction_word d) };

    fn fmt<W: fmt::Write>(&self, f: &mut fmt::Formatter<W>) -> fmt::Result {
        f.write_str(match self {
            Direction::Below => "below",
            Direction::Equal => "equal",
            Direction::Above => "above",
        })
    }
}

// From the word that is printed for it.
impl FromStr for Direction {
    type Err = UnknownWord;

    ghost from_str_gives = { Spells direction_word };

    fn from_str(word: &str) -> Result<Direction, UnknownWord> {
        match word {
            "below" => Ok(Direction::Below),
            "equal" => Ok(Direction::Equal),
            "above" => Ok(Direction::Above),
            _ => Err(UnknownWord),
        }
    }
}
