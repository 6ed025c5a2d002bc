ghost use Rattle.std.specs.Prelude.{◌≡◌};
ghost use Rattle.wire.specs.Faults.{fault_number, refusal};
ghost use Rattle.wire.specs.declared.fault.WireError.TheVariants.{Memory, Refused};

use std::alloc::{AllocError, AllocFailed};

// Why a thing is refused, with what the message names. Several causes share a number.
#[derive(Clone, Copy, Debug, PartialEq, Eq)]
pub enum Fault {
    // 1: an unknown kind; the file ends before the thing does; a byte after the last thing.
    Kind(u8),
    Cut,
    Extra,
    // 2: the number of switches, the room of a store, the number of cables, a switch not below the number of switches.
    Switches(u8),
    Room(u8),
    TooManyCables(u16),
    NoSwitch(u8),
    // 3: a cable from a switch to itself.
    Itself(u8),
    // 4: the lowest switch that can't be reached from switch 0.
    Apart(u8),
    // 5: a patience or a wait that is too long.
    LongPatience,
    LongWait,
    TooLong,
    // 6: a door or a place that isn't there.
    NoDoor(u8),
    NoPlace(u8),
    // 7: a name not above the last one let in at its door.
    OldName(u32),
    // 8: too many blocks wait at this door.
    DoorFull(u8),
    // 9: a word of a free place for a link where none is missing, or that isn't there.
    NoneMissing(u16),
    NoLink(u16),
    // 10: in a foreign table, a channel that isn't there, too many channels, too many places.
    NoChannel(u16),
    TooManyChannels(u16),
    TooManyPlaces(u8),
}

// A fault, and the offset of the first byte of the thing that has it.
#[derive(Clone, Copy, Debug, PartialEq, Eq)]
pub struct Refusal {
    pub fault: Fault,
    pub offset: usize,
}

// Why a reader that allocates gives no value. Want of memory is no fault of the file, and has no number.
#[derive(Clone, Copy, Debug, PartialEq, Eq)]
pub enum WireError {
    Refused(Refusal),
    Memory,
}

impl Fault {
    // The number under which a fault is reported.
    pub fn number(&self) -> u8
        ensures { result ≡ fault_number self.now }
    {
        match *self {
            Fault::Kind(_) | Fault::Cut | Fault::Extra => 1,
            Fault::Switches(_) | Fault::Room(_) | Fault::TooManyCables(_) | Fault::NoSwitch(_) => 2,
            Fault::Itself(_) => 3,
            Fault::Apart(_) => 4,
            Fault::LongPatience | Fault::LongWait | Fault::TooLong => 5,
            Fault::NoDoor(_) | Fault::NoPlace(_) => 6,
            Fault::OldName(_) => 7,
            Fault::DoorFull(_) => 8,
            Fault::NoneMissing(_) | Fault::NoLink(_) => 9,
            Fault::NoChannel(_) | Fault::TooManyChannels(_) | Fault::TooManyPlaces(_) => 10,
        }
    }

    // A thing that has this fault and begins at this offset.
    pub fn at(self, offset: usize) -> Refusal
        ensures { result ≡ refusal self offset }
    {
        Refusal {
            fault: self,
            offset,
        }
    }
}

impl From<Refusal> for WireError {
    ghost from_gives = { λ x r. r ≡ Refused x };

    fn from(refusal: Refusal) -> WireError {
        WireError::Refused(refusal)
    }
}

impl From<AllocError> for WireError {
    ghost from_gives = { λ _ r. r ≡ Memory };

    fn from(_refused: AllocError) -> WireError {
        WireError::Memory
    }
}

impl<T: Drop> From<AllocFailed<T>> for WireError {
    ghost from_gives = { λ _ r. r ≡ Memory };

    fn from(_refused: AllocFailed<T>) -> WireError {
        WireError::Memory
    }
}
