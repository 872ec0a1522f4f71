use forms::Refusal;
use std::{fmt, io};
use thiserror::Error;

// Why a story breaks off: it could not be printed, or something was refused that should not have been.
#[derive(Drop, Error)]
pub enum Stop {
    #[error("the story could not be printed")]
    Print(#[from] io::Error),
    #[error(transparent)]
    Refused(#[from] Refusal),
}

// `main` prints the error that it ends with by this: the same text.
impl fmt::Debug for Stop {
    fn fmt<W: fmt::Write>(&self, f: &mut fmt::Formatter<W>) -> fmt::Result {
        write!(f, "{self}")
    }
}
