ghost use Rattle.std.specs.Prelude.{IfOk, MatchOption};
ghost use Rattle.ring.specs.Fewest.{FewestOf};
ghost use Rattle.ring.specs.Graph.{FeedsIn};
ghost use Rattle.ring.specs.Ring.{NoRing, Smallest};

use crate::dependencies::Dependencies;
use crate::distances::Distances;
use std::alloc::{AllocError, Global};

// The lowest member of a ring, and how many members it has.
#[derive(Clone, Copy)]
struct Best {
    low: usize,
    members: u16,
}

// The smallest ring, if there is one.
pub(crate) fn smallest(heap: Global, graph: &Dependencies) -> Result<Option<Vec<u16>>, AllocError>
    ensures { IfOk result (λ o. MatchOption o (NoRing (FeedsIn graph.now)) (λ v. Smallest (FeedsIn graph.now) v.items)) }
{
    let Some(best) = fewest(heap, graph)? else {
        return Ok(None);
    };
    let numbers = vec![in heap; 0u16; graph.channels]?;
    let back = Distances::back_to(graph, best.low, best.members, numbers);
    Ok(Some(back.ring(heap)?))
}

// The lowest member and the number of members of a ring of fewest, of the lowest such member, if there is a ring.
fn fewest(heap: Global, graph: &Dependencies) -> Result<Option<Best>, AllocError>
    ensures { IfOk result (λ o. FewestOf (FeedsIn graph.now) graph.now.channels graph.now.channels o) }
{
    let mut best: Option<Best> = None;
    let mut numbers = vec![in heap; 0u16; graph.channels]?;
    for low in 0..graph.channels {
        let most = best.map_or(graph.channels as u16 + 1, |best| best.members);
        let back = Distances::back_to(graph, low, most, numbers);
        if let Some(members) = back.members_below(most) {
            best = Some(Best { low, members });
        }
        numbers = back.into_numbers();
    }
    Ok(best)
}
