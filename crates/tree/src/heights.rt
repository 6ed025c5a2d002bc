ghost use Rattle.std.specs.Prelude.{◌≡◌, ◌<◌, ◌≤◌, All, map, length, IfOk, slice_index};
ghost use Rattle.tree.specs.Legal.{above};
ghost use Rattle.tree.specs.Listed.{level_by, rank_by, way_by};

use crate::Way;
use graph::Link;
use std::alloc::{AllocError, Global};

// The level of each switch; all are joined, so that no level is as large as the number of switches.
#[derive(Clone, Copy)]
pub(crate) struct Heights<'a> {
    pub(crate) levels: &'a [u8],
    ghost few: { length levels.now ≤ 64 },
    ghost low: { All (λ l. l < length levels.now) levels.now },
}

impl Heights<'_> {
    // Whether a is above b: its level is lower, or equal and its number lower.
    fn above(&self, a: u8, b: u8) -> bool
        requires { (a < length self.now.levels.now) × (b < length self.now.levels.now) }
        ensures { result ≡ above (level_by self.now.levels.now) a b }
    {
        let (over, under) = (self.levels[usize::from(a)], self.levels[usize::from(b)]);
        over < under || (over == under && a < b)
    }

    // The rank of a link that goes up or down, by where it ends.
    fn rank(&self, up: bool, end: u8) -> u32
        requires { end < length self.now.levels.now }
        ensures { result ≡ rank_by (length self.now.levels.now) (slice_index self.now.levels.now end) up end }
    {
        let n = self.levels.len() as u32;
        let number = u32::from(self.levels[usize::from(end)]) * n + u32::from(end);
        let middle = n * n + n;
        if up {
            middle - number
        } else {
            middle + 1 + number
        }
    }

    // The way of a link: it goes up if it ends above where it begins.
    fn way(&self, link: Link) -> Way
        requires { (link.from < length self.now.levels.now) × (link.to < length self.now.levels.now) }
        ensures { result ≡ way_by self.now.levels.now link }
    {
        let up = self.above(link.to, link.from);
        Way {
            up,
            rank: self.rank(up, link.to),
        }
    }

    // The ways of these links.
    pub(crate) fn ways(&self, heap: Global, links: &[Link]) -> Result<Vec<Way>, AllocError>
        requires { All (λ l. (l.from < length self.now.levels.now) × (l.to < length self.now.levels.now)) links.now }
        ensures { IfOk result (λ v. v.items ≡ map (way_by self.now.levels.now) links.now) }
    {
        links.iter().map(|link| self.way(*link)).collect(heap)
    }
}
