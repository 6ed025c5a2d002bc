ghost use Rattle.report.specs.Notices.{cause_words, file_word, notice_line};
ghost use Rattle.std.specs.Prelude.{Some};

use std::fmt;
use wire::{Fault, Refusal};

// The file in which a fault was found.
#[derive(Clone, Copy, Debug, PartialEq, Eq)]
pub enum Source {
    Cables,
    Script,
    Table,
}

impl fmt::Display for Source {
    ghost output = { λ x. Some (file_word x) };

    fn fmt<W: fmt::Write>(&self, f: &mut fmt::Formatter<W>) -> fmt::Result {
        match self {
            Source::Cables => write!(f, "cables"),
            Source::Script => write!(f, "script"),
            Source::Table => write!(f, "table"),
        }
    }
}

// A refusal as it is told: `refused <number> at byte <offset> of <file>: <cause>`.
#[derive(Clone, Copy, Debug, PartialEq, Eq)]
pub struct Notice {
    pub refusal: Refusal,
    pub source: Source,
}

// The words for a fault. They stand here, with all else that is printed: wire knows bytes and numbers only.
#[derive(Clone, Copy)]
struct Cause(Fault);

impl fmt::Display for Cause {
    ghost output = { λ x. Some (cause_words x.0) };

    fn fmt<W: fmt::Write>(&self, f: &mut fmt::Formatter<W>) -> fmt::Result {
        match self.0 {
            Fault::Kind(k) => write!(f, "unknown kind {k}"),
            Fault::Cut => write!(f, "the file ends too early"),
            Fault::Extra => write!(f, "a byte too many"),
            Fault::Switches(n) => write!(f, "{n} switches, not 1 to 64"),
            Fault::Room(m) => write!(f, "stores for {m}, not 1 to 32"),
            Fault::TooManyCables(n) => write!(f, "{n} cables, more than 128"),
            Fault::NoSwitch(s) => write!(f, "switch {s} is not there"),
            Fault::Itself(s) => write!(f, "a cable from switch {s} to itself"),
            Fault::Apart(s) => write!(f, "switch {s} cannot be reached from switch 0"),
            Fault::LongPatience => write!(f, "a patience is above 2^40"),
            Fault::LongWait => write!(f, "a wait is above 2^40"),
            Fault::TooLong => write!(f, "a patience or a wait is above 2^40"),
            Fault::NoDoor(d) => write!(f, "door {d} is not there"),
            Fault::NoPlace(p) => write!(f, "place {p} is not there"),
            Fault::OldName(n) => write!(f, "name {n} is not above the last one"),
            Fault::DoorFull(d) => write!(f, "more than 4096 blocks wait at door {d}"),
            Fault::NoneMissing(e) => write!(f, "no place is missing at link {e}"),
            Fault::NoLink(e) => write!(f, "link {e} is not there"),
            Fault::NoChannel(c) => write!(f, "channel {c} is not there"),
            Fault::TooManyChannels(n) => write!(f, "{n} channels, more than 320"),
            Fault::TooManyPlaces(n) => write!(f, "{n} places, more than 64"),
        }
    }
}

impl fmt::Display for Notice {
    ghost output = { λ x. Some (notice_line x.refusal x.source) };

    fn fmt<W: fmt::Write>(&self, f: &mut fmt::Formatter<W>) -> fmt::Result {
        let number = self.refusal.fault.number();
        let offset = self.refusal.offset;
        let file = self.source;
        let cause = Cause(self.refusal.fault);
        write!(f, "refused {number} at byte {offset} of {file}: {cause}")
    }
}
