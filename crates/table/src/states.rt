ghost use Rattle.std.specs.Prelude.{◌≡◌, ℕ, ◌<◌, not, ◌&&◌, ◌==◌, length, replicate, if◌then◌else◌, IfOk, bit_or, slice_index_or};
ghost use Rattle.graph.specs.Sets.{has as «has-spec»};
ghost use Rattle.net.specs.declared.Entry.TheVariants.{Here, Link};

use graph::has;
use net::Entry;
use std::alloc::{AllocError, Global};

// A state of the sweep: the switches that it has reached, those it had reached a layer before, and how it goes on to each.
#[derive(Drop)]
pub(crate) struct State {
    pub(crate) reached: u64,
    pub(crate) before: u64,
    pub(crate) row: Vec<Entry>,
}

impl State {
    // At first a state has reached its own switch.
    pub(crate) fn new(heap: Global, switches: usize, own: usize) -> Result<State, AllocError>
        requires { own < 64 }
        ensures own { IfOk result (λ s. (p : ℕ) → «has-spec» s.reached p ≡ (own == p)) }
        ensures row { IfOk result (λ s. s.row.items ≡ replicate switches Here) }
    {
        Ok(State {
            reached: 1u64 << own,
            before: 0,
            row: vec![in heap; Entry::Here; switches]?,
        })
    }

    // What a state had reached to which link k leads is added, and where it is new, by this link.
    pub(crate) fn add(&mut self, more: u64, k: u16)
        ensures reached { self.new.reached ≡ bit_or self.old.reached more }
        ensures before { self.new.before ≡ self.old.before }
        ensures size { length self.new.row.items ≡ length self.old.row.items }
        ensures row { (p : ℕ) → p < length self.old.row.items → slice_index_or self.new.row.items p Here ≡ (if «has-spec» more p && not («has-spec» self.old.reached p) then Link k else slice_index_or self.old.row.items p Here) }
    {
        let had = self.reached;
        self.reached |= more;
        let fresh = self.reached ^ had;
        if fresh != 0 {
            for (p, entry) in self.row.iter_mut().enumerate() {
                if has(fresh, p) {
                    *entry = Entry::Link(k);
                }
            }
        }
    }
}
