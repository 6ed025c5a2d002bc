use net::{Entry, Layout};
use std::alloc::{AllocError, Global};

const HERE: Entry = Entry::Here;

const TO_1: Entry = Entry::Link(1);

const TO_2: Entry = Entry::Link(3);

const TO_3: Entry = Entry::Link(5);

const UP_1: Entry = Entry::Link(0);

const UP_2: Entry = Entry::Link(2);

const UP_3: Entry = Entry::Link(4);

// Cables 1-0, 2-0 and 3-0: links 0, 2 and 4 go up to switch 0, links 1, 3 and 5 down from it; then the doors 0 to 3.
const TABLE: [Entry; 40] = [
    HERE, HERE, TO_2, TO_3, //
    HERE, HERE, HERE, HERE, //
    HERE, TO_1, HERE, TO_3, //
    HERE, HERE, HERE, HERE, //
    HERE, TO_1, TO_2, HERE, //
    HERE, HERE, HERE, HERE, //
    HERE, TO_1, TO_2, TO_3, //
    UP_1, HERE, UP_1, UP_1, //
    UP_2, UP_2, HERE, UP_2, //
    UP_3, UP_3, UP_3, HERE,
];

const RANKS: [u32; 10] = [20, 26, 20, 27, 20, 28, 0, 0, 0, 0];

const ENDS: [u8; 6] = [0, 1, 0, 2, 0, 3];

// The star's layout, with stores for two blocks.
pub(crate) fn star(heap: Global) -> Result<Layout, AllocError> {
    Ok(Layout {
        links: 6,
        doors: 4,
        places: 4,
        room: 2,
        table: Vec::from_slice(heap, &TABLE)?,
        ranks: Vec::from_slice(heap, &RANKS)?,
        ends: Vec::from_slice(heap, &ENDS)?,
    })
}
