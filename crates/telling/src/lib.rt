// Loads and readings told in plain text, and why a story breaks off.
#![tactic(auto)]

mod amount;
mod decimal;
mod digits;
mod stop;

pub use amount::{Amount, Told};
pub use stop::Stop;
