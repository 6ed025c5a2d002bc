// The whole: the bytes of a list of cables to its tree, table and waits, or the fault (`Hall`). The theorem: for every
// string of bytes the answer is the one that the definitions in specs/ prescribe.
#![tactic(auto)]

mod hall;
mod laying;
mod road;

pub use hall::Hall;
