use tree::Tree;
use waits::Bounds;
use wire::CableList;

// A hall that is laid: its list of cables, its tree, and the plan of its net with patience and waits.
#[derive(Drop)]
pub struct Hall {
    pub list: CableList,
    pub tree: Tree,
    pub bounds: Bounds,
}
