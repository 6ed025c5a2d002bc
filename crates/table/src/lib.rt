// The table of a tree: for each channel and place the first link of a shortest legal road, kept where a block from a door
// can meet it; and the layout of the net with that table, ranks and ends. The theorem: the layout of every accepted list
// of cables can be served, its net is good, and it leads every door's blocks to every place.
#![tactic(auto)]

mod error;
mod laws;
mod laying;
mod marks;
mod onward;
mod rows;
mod states;
mod steps;
mod sweep;
mod ways;

pub use error::LayoutError;
pub use laws::{each_at_its_place, here_where_it_should, laid_is_good, roads_are_right};
pub use laying::{lay, layout};
