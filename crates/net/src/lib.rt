// The words that every crate shares: a block, an entry of a forwarding table, what came; how a net is wired, and a plan
// of it, which is a layout that was checked, with the order in which links are served. In specs/ stand the model of a
// net and what makes it good; the theorem is that a plan's net is good and that its order is the order of serving. And
// the search of a table, row by row, for the first cell that a test picks.
#![tactic(auto)]

mod check;
mod error;
mod grid;
mod layout;
pub mod limits;
mod plan;
mod planning;
mod rows;
mod serving;

pub use error::PlanError;
pub use grid::first_cell;
pub use layout::Layout;
pub use plan::Plan;
pub use serving::{OrderError, serving_order};

// A cable joins two switches.
#[derive(Clone, Copy, Debug, PartialEq, Eq)]
pub struct Cable {
    pub a: u8,
    pub b: u8,
}

// A block (packet): the door (injection port of a switch) at which it was let in, the place (ejection port
// of a switch) that it is for, and its name.
#[derive(Clone, Copy, Debug, PartialEq, Eq)]
pub struct Block {
    pub door: u8,
    pub place: u8,
    pub name: u32,
}

// An entry of a forwarding table: a block that stands in a channel has come, or goes on by a link.
#[derive(Clone, Copy, Debug, PartialEq, Eq)]
pub enum Entry {
    Here,
    Link(u16),
}

// A block that was handed over at its place, with the channel in which it stood and the round.
#[derive(Clone, Copy, Debug, PartialEq, Eq)]
pub struct Came {
    pub block: Block,
    pub channel: u16,
    pub round: u64,
}
