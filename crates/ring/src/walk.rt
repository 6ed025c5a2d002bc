ghost use Rattle.std.specs.Prelude.{◌≡◌, ◌<◌, ◌≤◌, ◌↔◌, IfOk, IsTrue, MatchOption, slice_index};
ghost use Rattle.ring.specs.Down.{GoesOn, LowestRing, NextOn};
ghost use Rattle.ring.specs.Graph.{FeedsIn};
ghost use Rattle.ring.specs.Layers.{Near};

use crate::distances::Distances;
use std::alloc::{AllocError, Global};

impl Distances<'_> {
    // The ring through `to` of as many channels as its number says that is first in order.
    pub(crate) fn ring(&self, heap: Global) -> Result<Vec<u16>, AllocError>
        requires some { 0 < slice_index self.now.numbers.items self.now.to }
        requires near { Near (FeedsIn self.now.graph.now) self.now.to (slice_index self.now.numbers.items self.now.to) self.now.numbers.items }
        ensures { IfOk result (λ v. LowestRing (FeedsIn self.now.graph.now) self.now.to self.now.numbers.items v.items) }
    {
        let mut ring = vec![in heap; self.to as u16]?;
        let mut at = self.to;
        while let Some(next) = self.next(at) {
            ring.push(next as u16)?;
            at = next;
        }
        Ok(ring)
    }

    // The lowest channel that goes on from x; none from the last, since no channel has number 0.
    fn next(&self, x: usize) -> Option<usize>
        requires inside { x < self.now.graph.now.channels }
        requires some { 0 < slice_index self.now.numbers.items x }
        requires most { slice_index self.now.numbers.items x ≤ slice_index self.now.numbers.items self.now.to }
        requires near { Near (FeedsIn self.now.graph.now) self.now.to (slice_index self.now.numbers.items self.now.to) self.now.numbers.items }
        ensures { MatchOption result
            (slice_index self.now.numbers.items x ≡ 1)
            (λ e. NextOn (FeedsIn self.now.graph.now) self.now.to self.now.numbers.items x e) }
    {
        (self.to..self.graph.channels).find(|&e| self.goes_on(x, e))
    }

    // Whether x hands blocks to e, from which the way back is one shorter.
    fn goes_on(&self, x: usize, e: usize) -> bool
        requires x_inside { x < self.now.graph.now.channels }
        requires e_inside { e < self.now.graph.now.channels }
        requires some { 0 < slice_index self.now.numbers.items x }
        ensures { IsTrue result ↔ GoesOn (FeedsIn self.now.graph.now) self.now.numbers.items x e }
    {
        self.of(e) == Some(self.numbers[x] - 1) && self.graph.feeds(x, e)
    }
}
