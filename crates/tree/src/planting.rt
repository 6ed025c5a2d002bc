ghost use Rattle.std.specs.Result.{MatchResult};
ghost use Rattle.tree.specs.Made.{Planted};
ghost use Rattle.graph.specs.Refusal.{Rootless};

use crate::Tree;
use crate::heights::Heights;
use graph::{Cabling, TreeError};
use std::alloc::Global;

impl Tree {
    // The tree of accepted cables with this root.
    pub fn new(heap: Global, cabling: Cabling, root: usize) -> Result<Tree, TreeError>
        ensures { MatchResult result (λ t. Planted cabling root t) (λ e. Rootless cabling root e) }
    {
        let levels = cabling.levels(heap, root)?;
        let heights = Heights { levels: &levels };
        let ways = heights.ways(heap, &cabling.links)?;
        Ok(Tree {
            cabling,
            root,
            levels,
            ways,
        })
    }
}
