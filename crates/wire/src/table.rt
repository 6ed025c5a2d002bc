ghost use Rattle.std.specs.Prelude.{◌≡◌, ◌*◌, IfOk};
ghost use Rattle.wire.specs.Faults.{Answers};
ghost use Rattle.wire.specs.Tables.{Shaped, entry_of, frame_by_bytes, frame_of, table_read, tabled};

use crate::fault::{Fault, WireError};
use crate::file;
use crate::head::{FileHead, after_kind};
use net::{Entry, limits};
use std::alloc::Global;

// A foreign table: the entry of channel c for place p stands at c * places + p.
#[derive(Drop)]
pub struct Table {
    pub channels: usize,
    pub places: usize,
    pub entries: Vec<Entry>,
}

// The numbers of a file's head.
#[derive(Clone, Copy)]
struct Frame {
    channels: u16,
    places: u8,
}

const KIND: u8 = 4;

// The head of these numbers.
fn frame_from(channels: u16, places: u8) -> Result<Frame, Fault>
    ensures { result ≡ frame_by_bytes channels places }
{
    if channels > limits::FOREIGN_CHANNELS {
        return Err(Fault::TooManyChannels(channels));
    }
    if places > limits::FOREIGN_PLACES {
        return Err(Fault::TooManyPlaces(places));
    }
    Ok(Frame { channels, places })
}

impl FileHead for Frame {
    type Thing = Entry;

    ghost head = { frame_of };

    ghost number = { λ f. f.channels * f.places };

    ghost made = { λ f. entry_of f.channels };

    ghost SIZE = { 4 };

    const SIZE: usize = 4;

    fn read(bytes: &[u8]) -> Result<Frame, Fault> {
        let [high, low, places, ..] = after_kind(KIND, bytes)? else {
            return Err(Fault::Cut);
        };
        frame_from(u16::from_be_bytes([*high, *low]), *places)
    }

    fn count(&self) -> usize {
        self.channels as usize * self.places as usize
    }

    // The entry's number is 0 for here and else the next channel + 1.
    fn thing(&self, high: u8, low: u8) -> Result<Entry, Fault> {
        let e = u16::from_be_bytes([high, low]);
        if e == 0 {
            return Ok(Entry::Here);
        }
        if e > self.channels {
            return Err(Fault::NoChannel(e - 1));
        }
        Ok(Entry::Link(e - 1))
    }
}

// What a file of a foreign table says, or its first fault.
pub fn read_table(heap: Global, bytes: &[u8]) -> Result<Table, WireError>
    ensures is { Answers tabled (table_read bytes.now) result }
    ensures shaped { IfOk result (λ t. Shaped (tabled t)) }
{
    let (frame, entries) = file::read::<Frame>(heap, bytes)?;
    Ok(Table {
        channels: frame.channels as usize,
        places: frame.places as usize,
        entries,
    })
}
