ghost use Rattle.std.specs.Prelude.{◌≡◌, slice_index, MatchOption};
ghost use Rattle.net.specs.Layout.{Sized, FirstOfAll, AllRise, entry_at, rises_at};

use crate::layout::Layout;
use crate::{Entry, first_cell};

// The table of a layout whose sizes are right: a row for each channel, with an entry for each place.
#[derive(Clone, Copy)]
pub(crate) struct Rows<'a> {
    pub(crate) layout: &'a Layout,
    ghost sized: { Sized layout.now },
}

impl Rows<'_> {
    // The first entry that does not lead to a link of higher rank, by channel and then by place.
    pub(crate) fn falls(&self) -> Option<(usize, usize)>
        ensures { MatchOption result (AllRise self.now.layout.now) (λ x. FirstOfAll self.now.layout.now x.0 x.1) }
    {
        first_cell(
            self.layout.links + self.layout.doors,
            self.layout.places,
            |c, p| !self.rises(c, p),
        )
    }

    // Whether a block in channel c for place p has come, or goes on by a link of higher rank.
    fn rises(&self, c: usize, p: usize) -> bool
        ensures { result ≡ rises_at self.now.layout.now c p }
    {
        match self.entry(c, p) {
            Entry::Here => true,
            Entry::Link(e) => {
                (e as usize) < self.layout.links && self.rank(c) < self.rank(e as usize)
            }
        }
    }

    // Past the last rank: 0.
    fn rank(&self, c: usize) -> u32
        ensures { result ≡ slice_index self.now.layout.now.ranks.items c }
    {
        self.layout.ranks.get(c).copied().unwrap_or(0)
    }

    // Outside of the rows the table says here.
    pub(crate) fn entry(&self, c: usize, p: usize) -> Entry
        ensures { result ≡ entry_at self.now.layout.now.table.items self.now.layout.now.places c p }
    {
        if c < self.layout.ranks.len() && p < self.layout.places {
            self.layout.table[c * self.layout.places + p]
        } else {
            Entry::Here
        }
    }
}
