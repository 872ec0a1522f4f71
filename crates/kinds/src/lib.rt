// The forms that a line of text names: a fixed form by its parts, and a float by the name of its format.
#![tactic(auto)]

mod form_name;
mod format_name;

pub use form_name::FormName;
pub use format_name::FormatName;
