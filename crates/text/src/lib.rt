// The texts that programs print, made of values of the library: a hall that is laid, a script that is played, a verdict
// on a foreign table. Each text is proved, byte by byte, to be the one that specs/ describes; `report` has the lines.
#![tactic(auto)]

mod hall;
mod pieces;
mod rings;
mod script;

pub use hall::hall_text;
pub use rings::verdict_text;
pub use script::Account;
