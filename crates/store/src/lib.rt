// The two ends of a link's buffer. A store is the input buffer (FIFO) at the link's far end: it holds up to 32
// blocks, oldest first. A credit counts, at the link's near end, the places of that store that are known to be
// free, so that a block is sent only if it has a place to go to.
#![tactic(auto)]

mod credit;
mod store;

pub use credit::Credit;
pub use store::Store;
