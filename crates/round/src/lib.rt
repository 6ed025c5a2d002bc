// The round itself: the fabric that is run by a plan (stores, credits, turns, what waits at doors), and the rounds.
#![tactic(auto)]

mod error;
mod fabric;
mod hand;
mod link;
mod look;
mod running;
mod serve;

pub use error::Refusal;
pub use running::{LinkView, Running};
