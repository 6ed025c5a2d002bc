ghost use Rattle.std.specs.Prelude.{◌≡◌, ◌<◌};
ghost use Rattle.graph.specs.Layers.{Levelled};
ghost use Rattle.graph.specs.Refusal.{graph_of_cabling};
ghost use Rattle.graph.specs.Tree.{level};
ghost use Rattle.tree.specs.Listed.{way_list};

use crate::Way;
use graph::Cabling;

// The tree with a root: each switch's level, and each link's way.
#[derive(Drop)]
pub struct Tree {
    pub cabling: Cabling,
    pub root: usize,
    pub levels: Vec<u8>,
    pub ways: Vec<Way>,
    ghost inside: { root < cabling.switches },
    ghost levelled: { Levelled (graph_of_cabling cabling) root levels.items },
    ghost listed: { ways.items ≡ way_list (graph_of_cabling cabling) (level (graph_of_cabling cabling) root) },
}
