// A list of answers that others gave, line by line: what a line says, whether the forms answer so, and how the lines are counted.
#![tactic(auto)]

pub mod answers;
pub mod claims;
pub mod conversions;
pub mod line;
pub mod replay;
pub mod tally;
