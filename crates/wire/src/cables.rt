ghost use Rattle.std.specs.Prelude.{◌≡◌, IfOk};
ghost use Rattle.wire.specs.Faults.{Answers};
ghost use Rattle.wire.specs.Listed.{listed};
ghost use Rattle.wire.specs.Cables.{Proper, cable_by, head_by_bytes, head_of, cables_read};

use crate::fault::{Fault, WireError};
use crate::file;
use crate::head::{FileHead, after_kind, is_within};
use crate::list::CableList;
use net::{Cable, limits};
use std::alloc::Global;

// The numbers of a file's head.
#[derive(Clone, Copy)]
struct Head {
    switches: u8,
    room: u8,
    count: u16,
}

const KIND: u8 = 1;

// The head of these numbers.
fn head_from(switches: u8, room: u8, count: u16) -> Result<Head, Fault>
    ensures { result ≡ head_by_bytes switches room count }
{
    if !is_within(limits::SWITCHES, switches) {
        return Err(Fault::Switches(switches));
    }
    if !is_within(limits::ROOM, room) {
        return Err(Fault::Room(room));
    }
    if count > limits::CABLES {
        return Err(Fault::TooManyCables(count));
    }
    Ok(Head {
        switches,
        room,
        count,
    })
}

impl FileHead for Head {
    type Thing = Cable;

    ghost head = { head_of };

    ghost number = { λ h. h.count };

    ghost made = { λ h. cable_by h.switches };

    ghost SIZE = { 5 };

    const SIZE: usize = 5;

    fn read(bytes: &[u8]) -> Result<Head, Fault> {
        let [switches, room, high, low, ..] = after_kind(KIND, bytes)? else {
            return Err(Fault::Cut);
        };
        head_from(*switches, *room, u16::from_be_bytes([*high, *low]))
    }

    fn count(&self) -> usize {
        self.count as usize
    }

    // A switch that isn't there comes before a cable from a switch to itself.
    fn thing(&self, a: u8, b: u8) -> Result<Cable, Fault> {
        if a >= self.switches {
            return Err(Fault::NoSwitch(a));
        }
        if b >= self.switches {
            return Err(Fault::NoSwitch(b));
        }
        if a == b {
            return Err(Fault::Itself(a));
        }
        Ok(Cable { a, b })
    }
}

// What a file of cables says, or its first fault.
pub fn read_cables(heap: Global, bytes: &[u8]) -> Result<CableList, WireError>
    ensures is { Answers listed (cables_read bytes.now) result }
    ensures proper { IfOk result (λ l. Proper (listed l)) }
{
    let (head, cables) = file::read::<Head>(heap, bytes)?;
    Ok(CableList {
        switches: head.switches,
        room: head.room,
        cables,
    })
}
