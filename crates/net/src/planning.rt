ghost use Rattle.std.specs.Prelude.{◌≡◌, MatchResult};
ghost use Rattle.net.specs.Layout.{Sized, net_of};
ghost use Rattle.net.specs.Net.{Good};
ghost use Rattle.net.specs.Planned.{Refuses};

use crate::rows::Rows;
use crate::{Entry, Layout, Plan, PlanError, serving_order};
use std::alloc::Global;

impl Plan {
    // A plan of a layout, or the first cause to refuse it.
    pub fn new(heap: Global, layout: Layout) -> Result<Plan, PlanError>
        ensures { MatchResult result (λ p. (p.layout ≡ layout) × Sized layout × Good (net_of layout)) (λ e. Refuses layout e) }
    {
        layout.check()?;
        let order = serving_order(heap, &layout.ranks, layout.links)?;
        Ok(Plan { layout, order })
    }

    // What the table says for a block for place p that stands first in channel c; outside of the table: here.
    pub fn entry(&self, c: usize, p: usize) -> Entry
        ensures { result ≡ (net_of self.now.layout).next c p }
    {
        let rows = Rows {
            layout: &self.layout,
        };
        rows.entry(c, p)
    }
}
