ghost use Rattle.std.specs.Prelude.{◌≡◌, ◌<◌};
ghost use Rattle.tree.specs.Planted.{graph_in, up_in};

use graph::Link;
use tree::Tree;

// How many links a tree has.
pub(crate) fn links(tree: &Tree) -> usize
    ensures { result ≡ (graph_in tree.now).links }
{
    tree.cabling.links.len()
}

// Where link k begins and ends.
pub(crate) fn link(tree: &Tree, k: usize) -> Link
    requires { k < (graph_in tree.now).links }
    ensures from { result.from ≡ (graph_in tree.now).from k }
    ensures to { result.to ≡ (graph_in tree.now).to k }
{
    tree.cabling.links[k]
}

// Whether link k goes up.
pub(crate) fn goes_up(tree: &Tree, k: usize) -> bool
    requires { k < (graph_in tree.now).links }
    ensures { result ≡ up_in tree.now k }
{
    tree.ways[k].up
}
