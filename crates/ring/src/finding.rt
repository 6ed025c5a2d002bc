ghost use Rattle.std.specs.Prelude.{MatchResult};
ghost use Rattle.ring.specs.Answer.{Refuses, Told};

use crate::dependencies::Dependencies;
use crate::foreign::ForeignTable;
use crate::ranks::least_ranks;
use crate::shortest::smallest;
use crate::{RingError, Verdict};
use net::Entry;
use std::alloc::Global;

// Tells whether blocks can go round in a table of `channels` rows of `places` entries: the smallest ring of channels,
// each handing blocks to the next, or ranks that rise along every entry.
pub fn find(
    heap: Global,
    table: &[Entry],
    channels: usize,
    places: usize,
) -> Result<Verdict, RingError>
    ensures { MatchResult result (λ v. Told table.now channels places v) (λ e. Refuses table.now channels places e) }
{
    let table = ForeignTable::new(table, channels, places)?;
    let graph = Dependencies::of(heap, &table)?;
    if let Some(ring) = smallest(heap, &graph)? {
        return Ok(Verdict::Ring(ring));
    }
    let ranks = least_ranks(heap, &table)?;
    Ok(Verdict::Ranks(ranks))
}
