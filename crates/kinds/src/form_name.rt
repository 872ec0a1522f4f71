// The forms that can be named.
ghost use Rattle.std.specs.Prelude.{◌≡◌};
ghost use Rattle.forms.specs.Forms.{Asked};
ghost use Rattle.kinds.specs.Names.{meaning_of};
ghost use Rattle.kinds.specs.NameLaws.{sound, laws};

use crate::format_name::FormatName;
use fixed::Fixed;
use forms::{Form, Reading, Refusal, Source};

// A form of either kind; it reads and writes as the one that it names.
#[derive(Clone, Copy, Debug, PartialEq, Eq, Hash)]
pub enum FormName {
    Fixed(Fixed),
    Float(FormatName),
}

impl Source for FormName {
    ghost reads = { λ form. (meaning_of form).reads };

    ghost sound = { sound };

    fn read(&self, bits: u64) -> Result<Reading, Refusal> {
        match self {
            FormName::Fixed(form) => form.read(bits),
            FormName::Float(name) => name.read(bits),
        }
    }
}

impl FormName {
    // What the form that is named writes.
    fn form_write(&self, negative: bool, e: i32, low: u64, more: bool) -> (u64, bool)
        requires { Asked (meaning_of self.now).writing e low more }
        ensures { result ≡ (meaning_of self.now).writing.write negative e low more }
    {
        match self {
            FormName::Fixed(form) => form.write(negative, e, low, more),
            FormName::Float(name) => name.write(negative, e, low, more),
        }
    }
}

impl Form for FormName {
    ghost writing = { λ form. (meaning_of form).writing };

    ghost laws = { laws };

    fn grain(&self, e: i32) -> i32 {
        match self {
            FormName::Fixed(form) => form.grain(e),
            FormName::Float(name) => name.grain(e),
        }
    }

    fn write(&self, negative: bool, e: i32, low: u64, more: bool) -> (u64, bool) {
        self.form_write(negative, e, low, more)
    }

    fn zero(&self) -> u64 {
        match self {
            FormName::Fixed(form) => form.zero(),
            FormName::Float(name) => name.zero(),
        }
    }

    fn edge(&self, negative: bool) -> u64 {
        match self {
            FormName::Fixed(form) => form.edge(negative),
            FormName::Float(name) => name.edge(negative),
        }
    }
}
