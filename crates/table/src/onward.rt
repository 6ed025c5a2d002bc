ghost use Rattle.std.specs.Prelude.{◌≡◌, ℕ, ◌+◌, ◌<◌, length, slice_index_or, IfOk};
ghost use Rattle.net.specs.declared.Entry.TheVariants.{Here};
ghost use Rattle.table.specs.Cells.{state_of};
ghost use Rattle.table.specs.Kept.{channels, start, whole};
ghost use Rattle.table.specs.Swept.{swept_graph, swept_up};

use crate::sweep::{Onward, Sweep};
use crate::ways::{goes_up, link, links};
use net::Entry;
use std::alloc::{AllocError, Global};
use tree::Tree;

impl<'a> Onward<'a> {
    // Layer by layer each state takes a link as soon as one leads nearer.
    pub(crate) fn new(heap: Global, tree: &'a Tree) -> Result<Onward<'a>, AllocError>
        ensures { IfOk result (λ w. w.swept.tree.now ≡ tree.now) }
    {
        let n = tree.cabling.switches;
        let mut sweep = Sweep::new(heap, tree)?;
        for _layer in 0..n + n {
            sweep.layer();
            if sweep.is_still() {
                break;
            }
        }
        Ok(Onward { swept: sweep })
    }

    // The index of the state after channel c.
    fn state_after(&self, c: usize) -> usize
        requires { c < channels (swept_graph self.now.swept) }
        ensures state { state_of (swept_graph self.now.swept).n result ≡ start (swept_graph self.now.swept) (swept_up self.now.swept) c }
        ensures inside { result < (swept_graph self.now.swept).n + (swept_graph self.now.swept).n }
    {
        let n = self.swept.tree.cabling.switches;
        let links = links(self.swept.tree);
        if links <= c {
            c - links
        } else if goes_up(self.swept.tree, c) {
            usize::from(link(self.swept.tree, c).to)
        } else {
            n + usize::from(link(self.swept.tree, c).to)
        }
    }

    // How blocks go on from channel c, to each place.
    pub(crate) fn row(&self, c: usize) -> &[Entry]
        requires { c < channels (swept_graph self.now.swept) }
        ensures size { length result.now ≡ (swept_graph self.now.swept).n }
        ensures cells { (p : ℕ) → p < (swept_graph self.now.swept).n → slice_index_or result.now p Here ≡ whole (swept_graph self.now.swept) (swept_up self.now.swept) c p }
    {
        self.swept.states[self.state_after(c)].row.as_slice()
    }
}
