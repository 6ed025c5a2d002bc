// The tree of an accepted list of cables: levels from a root, which links go up and which down, and a rank for each link.
// The theorems: every switch but the root has a link to one a level higher, legal roads lead everywhere, and ranks rise
// along them.
#![tactic(auto)]

mod heights;
mod laws;
mod planted;
mod planting;
mod way;

pub use laws::{legal_roads, one_higher, ranks_rise};
pub use planted::Tree;
pub use way::Way;
