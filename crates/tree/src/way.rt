// The way of a link in a tree: whether it goes up, and its rank.
#[derive(Clone, Copy, Debug, PartialEq, Eq)]
pub struct Way {
    pub up: bool,
    pub rank: u32,
}
