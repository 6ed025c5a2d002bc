// Tells of any forwarding table whether blocks can go round in it. Channel c hands blocks to e if its entry for some
// place names e; a ring is a list of channels, all different, each handing blocks to the next and the last to the first.
// The theorem of this crate: `find` gives a ring exactly if there is one, and then the one of fewest members that is
// first in order; otherwise the least ranks that rise along every entry, with which the table is a good net, so that
// every promise of the machine holds of it. No search over all rings is made: for each channel c the layers of `distances`
// give the shortest ways back to it over channels not below c, and `walk` goes down them.
#![tactic(auto)]

mod dependencies;
mod distances;
mod error;
mod finding;
mod foreign;
mod ranks;
mod shortest;
mod told;
mod walk;

pub use error::RingError;
pub use finding::find;
pub use told::Verdict;
