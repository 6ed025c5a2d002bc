ghost use Rattle.std.specs.Prelude.{◌≡◌, ◌+◌, ◌<◌, length, IfOk, if◌then◌else◌, vec_len, nat_le, slice_index, slice_set};
ghost use Rattle.ring.specs.Ranks.{Below, InRow, LeastRanks, Lifted, Ready};
ghost use Rattle.ring.specs.Ring.{NoRing};
ghost use Rattle.ring.specs.Table.{Hands};

use crate::foreign::ForeignTable;
use net::Entry;
use std::alloc::{AllocError, Global};

// The least ranks of a table without a ring.
pub(crate) fn least_ranks(heap: Global, table: &ForeignTable) -> Result<Vec<u16>, AllocError>
    requires { NoRing (Hands table.now.entries.now table.now.places) }
    ensures { IfOk result (λ v. (vec_len v ≡ table.now.channels)
        × LeastRanks (Hands table.now.entries.now table.now.places) (λ c. slice_index v.items c)) }
{
    let mut ranks = vec![in heap; 0u16; table.channels]?;
    while raise_all(table, &mut ranks) {}
    Ok(ranks)
}

// Has ranks rise along each entry of the table; says whether one was raised.
fn raise_all(table: &ForeignTable, ranks: &mut [u16]) -> bool
    requires { Ready table.now.entries.now table.now.channels table.now.places ranks.old }
    ensures { Lifted (Hands table.now.entries.now table.now.places)
        (Below table.now.entries.now table.now.places table.now.channels) ranks.old ranks.new result }
{
    let mut raised = false;
    for c in 0..table.channels {
        raised |= raise_row(table, c, ranks);
    }
    raised
}

// The same along each entry of channel c.
fn raise_row(table: &ForeignTable, c: usize, ranks: &mut [u16]) -> bool
    requires ready { Ready table.now.entries.now table.now.channels table.now.places ranks.old }
    requires inside { c < table.now.channels }
    ensures { Lifted (Hands table.now.entries.now table.now.places)
        (InRow table.now.entries.now table.now.places c table.now.places) ranks.old ranks.new result }
{
    let mut raised = false;
    for entry in table.row(c) {
        if let Entry::Link(e) = *entry {
            raised |= raise(ranks, c, e as usize);
        }
    }
    raised
}

// Raises the rank of e above that of c where it is not; says whether it did.
fn raise(ranks: &mut [u16], c: usize, e: usize) -> bool
    requires inside { (c < length ranks.old) × (e < length ranks.old) }
    requires low { slice_index ranks.old c < 320 }
    ensures told { result ≡ nat_le (slice_index ranks.old e) (slice_index ranks.old c) }
    ensures after { ranks.new ≡ (if result then slice_set ranks.old e (slice_index ranks.old c + 1) else ranks.old) }
{
    if ranks[c] < ranks[e] {
        return false;
    }
    ranks[e] = ranks[c] + 1;
    true
}
