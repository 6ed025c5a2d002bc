// How long a block can wait, worked out for a plan before it runs: the patience of each channel and the wait of a block.
#![tactic(auto)]

ghost use Rattle.waits.specs.Laws.{PatienceLaw, LargestLaw, WaitLaw};
ghost use Rattle.waits.specs.Star.{StarWaits};

mod bounds;
mod error;
mod feeders;
mod feeding;
mod patience;

pub use bounds::Bounds;
pub use error::WaitError;

// No patience, and no wait with nothing before, may be longer than this.
const LIMIT: u64 = 1 << 40;

// Patience by its own equation, channel by channel, and as what is the largest over the places.
pub fn patience_law()
    ensures equation { PatienceLaw }
    ensures largest { LargestLaw }
{}

// The wait as a sum along the road that the table walks.
pub fn wait_law()
    ensures { WaitLaw }
{}

// The star of four switches, worked out from the definitions.
pub fn star_waits()
    ensures { StarWaits }
{}
