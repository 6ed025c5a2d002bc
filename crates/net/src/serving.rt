ghost use Rattle.std.specs.Prelude.{◌≡◌, ◌<◌, ◌||◌, length, All, IfOk, nat_lt};
ghost use Rattle.net.specs.Order.{InOrderOfRank, Serves, order};
ghost use Rattle.net.specs.Position.{is_too_many, position, rank_of};
ghost use Rattle.net.specs.declared.serving.OrderError.TheVariants.{Memory};

use std::alloc::{AllocError, AllocFailed, Global};

// A link's number is a u16.
const MOST_LINKS: usize = u16::MAX as usize + 1;

// Why there is no order of serving: more links than ranks or than numbers, or no memory.
#[derive(Clone, Copy, Debug, PartialEq, Eq)]
pub enum OrderError {
    TooMany,
    Memory,
}

impl From<AllocError> for OrderError {
    ghost from_gives = { λ _ r. r ≡ Memory };

    fn from(_e: AllocError) -> OrderError {
        OrderError::Memory
    }
}

impl<T: Drop> From<AllocFailed<T>> for OrderError {
    ghost from_gives = { λ _ r. r ≡ Memory };

    fn from(_e: AllocFailed<T>) -> OrderError {
        OrderError::Memory
    }
}

// The order in which the links below `links` are served, link k being of rank `ranks[k]`: highest rank first,
// among equals the lower number. Link by link, as the definition has it: a sort of the library would ask for a key that
// every number has, and not only those that have a rank.
pub fn serving_order(heap: Global, ranks: &[u32], links: usize) -> Result<Vec<u16>, OrderError>
    ensures refused { is_too_many result ≡ (nat_lt (length ranks.now) links || nat_lt 65536 links) }
    ensures ordered { IfOk result (λ v. v.items ≡ order (rank_of ranks.now) links) }
    ensures serves { IfOk result (λ v. Serves (rank_of ranks.now) links v.items) }
    ensures law { InOrderOfRank }
{
    if ranks.len() < links || MOST_LINKS < links {
        return Err(OrderError::TooMany);
    }
    let mut served = Vec::with_capacity(heap, links)?;
    for link in 0..links {
        let at = position_of(ranks, link, &served);
        served.insert(at, link as u16)?;
    }
    Ok(served)
}

// Where `link` goes into the order of those that are in it: before the first of lower rank, else at the end.
fn position_of(ranks: &[u32], link: usize, served: &[u16]) -> usize
    requires ranked { link < length ranks.now }
    requires known { All (λ k. k < length ranks.now) served.now }
    ensures { result ≡ position (rank_of ranks.now) link served.now }
{
    let rank = ranks[link];
    served
        .iter()
        .position(|other| ranks[*other as usize] < rank)
        .unwrap_or(served.len())
}
