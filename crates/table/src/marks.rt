ghost use Rattle.std.specs.Prelude.{◌≡◌, ℕ, ◌<◌, length, IfOk};
ghost use Rattle.table.specs.Marked.{AllMet, Walks};
ghost use Rattle.table.specs.Swept.{swept_graph, swept_up};

use crate::sweep::Onward;
use crate::ways::links;
use graph::has;
use net::Entry;
use std::alloc::{AllocError, Global};

impl Onward<'_> {
    // Marks the links of the road from door s to place p, up to the first that is marked already.
    fn walk(&self, met: &mut [u64], s: usize, p: usize)
        requires size { length met.old ≡ (swept_graph self.now.swept).links }
        requires door { s < (swept_graph self.now.swept).n }
        requires place { p < (swept_graph self.now.swept).n }
        ensures { Walks (swept_graph self.now.swept) (swept_up self.now.swept) s (λ q. q ≡ p) met.old met.new }
    {
        let mut c = links(self.swept.tree) + s;
        while let Entry::Link(link) = self.row(c)[p] {
            let k = usize::from(link);
            if has(met[k], p) {
                return;
            }
            met[k] |= 1u64 << p;
            c = k;
        }
    }

    // Marks the links of the roads from door s to all places.
    fn walk_door(&self, met: &mut [u64], s: usize)
        requires size { length met.old ≡ (swept_graph self.now.swept).links }
        requires door { s < (swept_graph self.now.swept).n }
        ensures { Walks (swept_graph self.now.swept) (swept_up self.now.swept) s (λ q. q < (swept_graph self.now.swept).n) met.old met.new }
    {
        for p in 0..self.swept.tree.cabling.switches {
            self.walk(met, s, p);
        }
    }

    // For each link the places for which blocks from some door come to it.
    pub(crate) fn met(&self, heap: Global) -> Result<Vec<u64>, AllocError>
        ensures { IfOk result (λ v. AllMet (swept_graph self.now.swept) (swept_up self.now.swept) v.items) }
    {
        let mut met = vec![in heap; 0u64; links(self.swept.tree)]?;
        for s in 0..self.swept.tree.cabling.switches {
            self.walk_door(&mut met, s);
        }
        Ok(met)
    }
}
