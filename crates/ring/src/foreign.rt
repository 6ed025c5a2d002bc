ghost use Rattle.std.specs.Prelude.{◌≡◌, ◌<◌, MatchOption, MatchResult};
ghost use Rattle.std.proofs.Props.{props};
ghost use Rattle.ring.specs.Answer.{Refuses};
ghost use Rattle.ring.specs.Table.{FirstStray, InRange, IsRow, Sized, names};

use crate::RingError;
use net::Entry;
use net::limits::{FOREIGN_CHANNELS, FOREIGN_PLACES};

// A forwarding table from elsewhere whose sizes are right: each channel has an entry for each place, which says here or
// names a channel.
#[derive(Clone, Copy)]
pub(crate) struct ForeignTable<'a> {
    pub(crate) entries: &'a [Entry],
    pub(crate) channels: usize,
    pub(crate) places: usize,
    ghost sized: { Sized entries.now channels places } by { Prim.hlevel props },
    ghost range: { InRange entries.now channels places },
}

impl<'a> ForeignTable<'a> {
    // The table, if its sizes and its entries are right.
    pub(crate) fn new(
        entries: &'a [Entry],
        channels: usize,
        places: usize,
    ) -> Result<ForeignTable<'a>, RingError>
        ensures { MatchResult result
            (λ t. (t.entries.now ≡ entries.now) × (t.channels ≡ channels) × (t.places ≡ places))
            (λ e. Refuses entries.now channels places e) }
    {
        // The graph's square of channels stays small with these sizes.
        if channels > FOREIGN_CHANNELS as usize
            || places > FOREIGN_PLACES as usize
            || entries.len() != channels * places
        {
            return Err(RingError::Sizes);
        }
        if let Some((channel, place)) = first_stray(entries, channels, places) {
            return Err(RingError::Stray { channel, place });
        }
        Ok(ForeignTable {
            entries,
            channels,
            places,
        })
    }

    // What the table says for channel c, place by place.
    pub(crate) fn row(&self, c: usize) -> &'a [Entry]
        requires { c < self.now.channels }
        ensures { IsRow self.now.entries.now self.now.places c result.now }
    {
        &self.entries[c * self.places..(c + 1) * self.places]
    }
}

// Whether an entry says here or names one of the channels.
fn is_in_range(entry: Entry, channels: usize) -> bool
    ensures { result ≡ names channels entry }
{
    match entry {
        Entry::Here => true,
        Entry::Link(e) => (e as usize) < channels,
    }
}

// The first entry that names no channel, by channel and then by place.
fn first_stray(entries: &[Entry], channels: usize, places: usize) -> Option<(usize, usize)>
    requires { Sized entries.now channels places }
    ensures { MatchOption result
        (InRange entries.now channels places)
        (λ x. FirstStray entries.now channels places x.0 x.1) }
{
    let at = entries
        .iter()
        .position(|entry| !is_in_range(*entry, channels))?;
    Some((at / places, at % places))
}
