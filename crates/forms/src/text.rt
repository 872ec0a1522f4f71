// The error for a word that names none of the cases that it could.
ghost use Rattle.std.specs.Prelude.{Some, codes};

use std::error::Error;
use std::fmt;

// The word names no case of what it was read as.
#[derive(Clone, Copy, Debug, PartialEq, Eq, Hash)]
pub struct UnknownWord;

impl fmt::Display for UnknownWord {
    ghost output = { λ _. Some (codes "an unknown word") };

    fn fmt<W: fmt::Write>(&self, f: &mut fmt::Formatter<W>) -> fmt::Result {
        f.write_str("an unknown word")
    }
}

impl Error for UnknownWord {}
