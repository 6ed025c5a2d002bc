ghost use Rattle.std.specs.Prelude.{◌≡◌, ◌+◌, All, length};
ghost use Rattle.table.specs.Cells.{Found};
ghost use Rattle.tree.specs.Planted.{graph_in, up_in};

use crate::states::State;
use tree::Tree;

// The states of a tree's switches: switch s while links up may be taken, and n + s for switch s after a link down.
#[derive(Drop)]
pub(crate) struct Sweep<'a> {
    pub(crate) tree: &'a Tree,
    pub(crate) states: Vec<State>,
    ghost two_for_each: { length states.items ≡ tree.now.cabling.switches + tree.now.cabling.switches },
    ghost rows: { All (λ s. length s.row.items ≡ tree.now.cabling.switches) states.items },
}

// A sweep whose layers are all done: its rows say how to go on from every state to every place.
#[derive(Drop)]
pub(crate) struct Onward<'a> {
    pub(crate) swept: Sweep<'a>,
    ghost found: { Found (graph_in swept.tree.now) (up_in swept.tree.now) swept.states.items },
}
