// What is printed of a tally: the three kinds of line that the list has.
ghost use Rattle.std.specs.Prelude.{Some};
ghost use Rattle.vectors.specs.Rows.{rows_text};

use lists::tally::{Readings, Tally};
use std::fmt;

#[derive(Clone, Copy, Debug, PartialEq, Eq, Hash)]
pub struct Rows(pub Tally);

impl fmt::Display for Rows {
    ghost output = { λ rows. Some (rows_text rows.0) };

    fn fmt<W: fmt::Write>(&self, f: &mut fmt::Formatter<W>) -> fmt::Result {
        let readings = Readings(self.0);
        let malformed = self.0.malformed;
        let altered = self.0.altered;
        write!(
            f,
            "{readings}malformed: {malformed}\naltered: {altered} refused"
        )
    }
}
