// Bytes to values and back, high byte first: lists of cables, scripts and foreign tables, each read from one lent
// slice. A file is a row of things: its head, each cable, each entry, each block, each word. Reading stops at the first
// thing with a fault, of its faults the lowest number wins, and the refusal holds the offset of its first byte. In
// specs/ stand the definitions, functions on lists of bytes, and the laws of them: an accepted file is the encoding of
// its value, reading the encoding gives the value back, and a file that is cut is refused where it is cut.
#![tactic(auto)]

mod cables;
mod fault;
mod file;
mod head;
mod laws;
mod list;
mod script;
mod table;

pub use cables::read_cables;
pub use fault::{Fault, Refusal, WireError};
pub use laws::{
    cable_lowest, cables_cut, cables_encoded, cables_proper, cables_read_back, frame_lowest,
    head_lowest, table_cut, table_encoded, table_read_back, table_shaped, thing_cut, thing_encoded,
    thing_read_back,
};
pub use list::CableList;
pub use net::Cable;
pub use script::{Thing, thing_at};
pub use table::{Table, read_table};
