// What a program answers to its files: how it ends, and a digest of what it prints.
ghost use Rattle.std.specs.Prelude.{◌≡◌, Some, IfOk};
ghost use Rattle.vectors.specs.Answers.{Tells, answer_line, end_words};

use crate::fnv::Digest;
use anyhow::bail;
use std::fmt;
use wire::{Refusal, WireError};

// How a program ends.
#[derive(Clone, Copy, Debug, PartialEq, Eq)]
pub enum End {
    // All was played, and there is no ring in a table.
    Well,
    // A table has a ring.
    Ring,
    // A file was refused.
    Refused(Refusal),
}

#[derive(Clone, Copy, Debug, PartialEq, Eq)]
pub struct Answer {
    pub end: End,
    pub digest: Digest,
}

// The status, the fault and its offset; 0 and 0 where nothing is refused.
impl fmt::Display for End {
    ghost output = { λ x. Some (end_words x) };

    fn fmt<W: fmt::Write>(&self, f: &mut fmt::Formatter<W>) -> fmt::Result {
        match self {
            End::Well => write!(f, "0 0 0"),
            End::Ring => write!(f, "1 0 0"),
            End::Refused(refusal) => {
                let number = refusal.fault.number();
                let offset = refusal.offset;
                write!(f, "1 {number} {offset}")
            }
        }
    }
}

impl fmt::Display for Answer {
    ghost output = { λ x. Some (answer_line x) };

    fn fmt<W: fmt::Write>(&self, f: &mut fmt::Formatter<W>) -> fmt::Result {
        let Answer { end, digest } = *self;
        write!(f, "{end} {digest}")
    }
}

impl Answer {
    // A file was refused, after this was printed.
    pub fn refused(error: WireError, digest: Digest) -> anyhow::Result<Answer>
        ensures { IfOk result (Tells error digest) }
    {
        match error {
            WireError::Memory => bail!("no memory"),
            WireError::Refused(refusal) => Ok(Answer {
                end: End::Refused(refusal),
                digest,
            }),
        }
    }
}
