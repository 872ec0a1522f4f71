// What a load cell's bits mean, whatever the form they come in: loads, readings and refusals, the trait of a source of readings, the purchase layer
// over any source, and the comparison of what two sources read; the trait of a form, which writes too, and conversion from any source into any form.
#![tactic(auto)]

pub mod cmp;
pub mod convert;
pub mod direction;
mod form;
mod load;
mod purchase;
mod ranged;
mod refusal;
mod round;
mod source;
mod text;
pub mod words;

pub use cmp::Comparison;
pub use direction::Direction;
pub use form::Form;
pub use load::{Load, Reading};
pub use purchase::{Factor, Purchase};
pub use refusal::{Cause, Refusal};
pub use source::Source;
pub use text::UnknownWord;
