ghost use Rattle.std.specs.Prelude.{◌≡◌, ◌<◌};
ghost use Rattle.graph.specs.Graph.{graph_with};
ghost use Rattle.graph.specs.Layers.{Linked};
ghost use Rattle.graph.specs.Tree as tree;

use crate::Link;

// A list of cables that was accepted: its links, and the root of its tree.
#[derive(Drop)]
pub struct Cabling {
    pub switches: usize,
    pub links: Vec<Link>,
    pub root: usize,
    ghost linked: { Linked (graph_with switches links.items) },
    ghost joined: { tree.Joined (graph_with switches links.items) },
    ghost inside: { root < switches },
    ghost center: { root ≡ tree.root (graph_with switches links.items) },
}
