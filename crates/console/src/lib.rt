// What the programs share: how words and files are read, why a program fails, and how it ends.
#![tactic(auto)]

mod ends;
mod failure;
mod given;

pub use ends::{end, put};
pub use failure::Failure;
pub use given::{read, words};

#[cfg(test)]
mod tests;
