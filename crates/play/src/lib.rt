// A script played against a hall: the things of the script are read one by one, and each is refused or played. The
// theorem, on `Play::start` and `Play::step`: for every list of cables that is not refused and every script, each step
// is the one that the definitions in specs/ prescribe, and all that the machine promises holds of the blocks that were
// let in before the first fault.
#![tactic(auto)]

mod game;
mod moves;
mod play;
mod steps;
mod stop;

pub use play::Play;
pub use stop::Stop;
