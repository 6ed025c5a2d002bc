ghost use Rattle.graph.specs.Refusal.{Accepts, Levels, Refuses, Rootless};
ghost use Rattle.std.specs.Prelude.{MatchResult};

use crate::check::check;
use crate::layers::Layers;
use crate::{Cable, CableError, Cabling, Link, TreeError};
use std::alloc::Global;

impl Cabling {
    // The links of a list of cables and the root of its tree, or the first cause to refuse it.
    pub fn new(heap: Global, switches: usize, cables: &[Cable]) -> Result<Cabling, CableError>
        ensures { MatchResult result (λ g. Accepts switches cables.now g) (λ e. Refuses switches cables.now e) }
    {
        check(switches, cables)?;
        let links = Link::list(heap, cables)?;
        let root = Layers::start(heap, switches, &links)?.join()?;
        Ok(Cabling {
            switches,
            links,
            root,
        })
    }

    // The level of each switch in the tree with this root.
    pub fn levels(&self, heap: Global, root: usize) -> Result<Vec<u8>, TreeError>
        ensures { MatchResult result (λ v. Levels self.now root v.items) (λ e. Rootless self.now root e) }
    {
        if self.switches <= root {
            return Err(TreeError::NoRoot);
        }
        let layers = Layers::start(heap, self.switches, &self.links)?;
        Ok(layers.levels(heap, root)?)
    }
}
