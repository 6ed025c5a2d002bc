ghost use Rattle.std.specs.Prelude.{◌≡◌, Some};
ghost use Rattle.console.specs.Failures.{MadeOf, failure_of, failure_words};

use report::{Notice, Source};
use std::fmt;
use wire::WireError;

// Why a program does not do what it is asked.
#[derive(Debug, Drop)]
pub enum Failure {
    // The file of this name cannot be read.
    Unread(String),
    // A file has a fault.
    Refused(Notice),
    Memory,
    Other(anyhow::Error),
}

impl Failure {
    // Why a file of this kind gives no value.
    pub fn of(source: Source, error: WireError) -> Failure
        ensures { result ≡ failure_of source error }
    {
        match error {
            WireError::Refused(refusal) => Failure::Refused(Notice { refusal, source }),
            WireError::Memory => Failure::Memory,
        }
    }
}

impl fmt::Display for Failure {
    ghost output = { λ x. Some (failure_words x) };

    fn fmt<W: fmt::Write>(&self, f: &mut fmt::Formatter<W>) -> fmt::Result {
        match self {
            Failure::Unread(name) => write!(f, "cannot read {name}"),
            Failure::Refused(notice) => write!(f, "{notice}"),
            Failure::Memory => write!(f, "no memory"),
            Failure::Other(cause) => write!(f, "{cause}"),
        }
    }
}

impl<E: Into<anyhow::Error>> From<E> for Failure {
    ghost from_gives = { λ error failure. MadeOf (E.converts error) failure };

    fn from(error: E) -> Failure {
        Failure::Other(error.into())
    }
}
