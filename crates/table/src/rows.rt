ghost use Rattle.std.specs.Prelude.{◌≡◌, ℕ, ◌*◌, ◌<◌, length, if◌then◌else◌, slice_index_or};
ghost use Rattle.graph.specs.Sets.{has as «has-spec»};
ghost use Rattle.net.specs.declared.Entry.TheVariants.{Here};
ghost use Rattle.table.specs.Kept.{channels};
ghost use Rattle.table.specs.Marked.{AllMet, Filled};
ghost use Rattle.table.specs.Swept.{swept_graph, swept_up};

use crate::sweep::Onward;
use crate::ways::links;
use graph::has;
use net::Entry;

// Fills the lent row of one channel: how to go on to each place, where that is met.
fn fill_row(row: &mut [Entry], onward: &[Entry], met: u64)
    requires { length row.old ≡ length onward.now }
    ensures { (p : ℕ) → p < length row.old → slice_index_or row.new p Here ≡ (if «has-spec» met p then slice_index_or onward.now p Here else Here) }
{
    row.copy_from_slice(onward);
    for (p, entry) in row.iter_mut().enumerate() {
        if !has(met, p) {
            *entry = Entry::Here;
        }
    }
}

impl Onward<'_> {
    // Fills the lent table: the row of each channel is lent on to be filled. To a door blocks for all places come.
    pub(crate) fn fill_table(&self, met: &[u64], table: &mut [Entry])
        requires met { AllMet (swept_graph self.now.swept) (swept_up self.now.swept) met.now }
        requires size { length table.old ≡ channels (swept_graph self.now.swept) * (swept_graph self.now.swept).n }
        ensures { Filled (swept_graph self.now.swept) (swept_up self.now.swept) table.new }
    {
        let n = self.swept.tree.cabling.switches;
        for c in 0..links(self.swept.tree) + n {
            let met = met.get(c).copied().unwrap_or(u64::MAX);
            fill_row(&mut table[c * n..c * n + n], self.row(c), met);
        }
    }
}
