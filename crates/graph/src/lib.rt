// A list of cables between switches as a graph: its links, the distance of two switches, whether all are joined, the root
// of its tree and the level of each switch. The code goes layer by layer with a set of switches in one number. What it
// finds is what the definitions say; above them stand two laws: a walk as long as the distance exists and none is
// shorter, and the root is the switch whose greatest distance is least, the lowest number among equals.
#![tactic(auto)]

mod cabling;
mod check;
mod error;
mod laws;
mod layers;
mod link;
mod making;
mod sets;

pub use cabling::Cabling;
pub use error::{CableError, TreeError};
pub use laws::{distance_is_shortest, root_is_central};
pub use link::Link;
pub use net::Cable;
pub use sets::has;
