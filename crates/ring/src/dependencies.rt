ghost use Rattle.std.specs.Prelude.{◌≡◌, ℕ, ◌*◌, ◌<◌, ◌≤◌, ◌↔◌, ◌+◌, true, false, IfOk, IsTrue, slice_index_or, slice_set, vec_len};

use crate::foreign::ForeignTable;
use net::Entry;
use std::alloc::{AllocError, Global};

// The channel dependency graph of a table: row x of its square marks the channels that hand blocks to x.
#[derive(Drop)]
pub(crate) struct Dependencies {
    pub(crate) channels: usize,
    pub(crate) marks: Vec<bool>,
    ghost few: { channels ≤ 320 },
    ghost square: { vec_len marks ≡ channels * channels },
}

impl Dependencies {
    ghost use Rattle.ring.specs.Graph.{Agrees, AreFeeders, FeedsIn};
    ghost use Rattle.ring.specs.Table.{Marked};

    // The graph of a table.
    pub(crate) fn of(heap: Global, table: &ForeignTable) -> Result<Dependencies, AllocError>
        ensures { IfOk result (λ g. Agrees table.now.entries.now table.now.channels table.now.places g) }
    {
        let mut graph = Dependencies::new(heap, table.channels)?;
        for c in 0..table.channels {
            graph.mark_row(table, c);
        }
        Ok(graph)
    }

    // The graph in which no channel hands blocks to any.
    fn new(heap: Global, channels: usize) -> Result<Dependencies, AllocError>
        requires { channels ≤ 320 }
        ensures { IfOk result (λ g. (g.channels ≡ channels) × ((i : ℕ) → slice_index_or g.marks.items i false ≡ false)) }
    {
        let marks = vec![in heap; false; channels * channels]?;
        Ok(Dependencies { channels, marks })
    }

    // Marks what the entries of channel c say.
    fn mark_row(&mut self, table: &ForeignTable, c: usize)
        requires same { self.old.channels ≡ table.now.channels }
        requires inside { c < table.now.channels }
        requires before { Marked table.now.entries.now table.now.channels table.now.places c 0 self.old.marks.items }
        ensures same { self.new.channels ≡ self.old.channels }
        ensures after { Marked table.now.entries.now table.now.channels table.now.places (c + 1) 0 self.new.marks.items }
    {
        let row = table.row(c);
        for entry in row {
            if let Entry::Link(e) = *entry {
                self.mark(c, e as usize);
            }
        }
    }

    // Marks that channel c hands blocks to e.
    fn mark(&mut self, c: usize, e: usize)
        requires { (c < self.old.channels) × (e < self.old.channels) }
        ensures same { self.new.channels ≡ self.old.channels }
        ensures marked { self.new.marks.items ≡ slice_set self.old.marks.items (e * self.old.channels + c) true }
    {
        self.marks[e * self.channels + c] = true;
    }

    // Whether channel y hands blocks to x.
    pub(crate) fn feeds(&self, y: usize, x: usize) -> bool
        requires { (y < self.now.channels) × (x < self.now.channels) }
        ensures { IsTrue result ↔ FeedsIn self.now y x }
    {
        self.feeders(x)[y]
    }

    // For each channel whether it hands blocks to x.
    pub(crate) fn feeders(&self, x: usize) -> &[bool]
        requires { x < self.now.channels }
        ensures { AreFeeders self.now x result.now }
    {
        &self.marks[x * self.channels..(x + 1) * self.channels]
    }
}
