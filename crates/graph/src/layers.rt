ghost use Rattle.std.specs.Prelude.{◌≡◌, ℕ, suc, ◌+◌, ◌^◌, ◌<◌, ◌≤◌, map, length, All, vec_len, IfOk, MatchResult, if◌then◌else◌, slice_index};
ghost use Rattle.std.specs.List.{range_with_len};
ghost use Rattle.graph.specs.Graph.{graph_with};
ghost use Rattle.graph.specs.Layers.{Finds, Levelled, Linked, Reached};
ghost use Rattle.graph.specs.Sets.{has};
ghost use Rattle.graph.specs.Tree.{Joined, Lost, root};
ghost use Rattle.roads.specs.Numbers.{every};

use crate::Link;
use crate::error::NotJoined;
use crate::sets::Set;
use std::alloc::{AllocError, Global};

// Sets of one switch each.
fn alone(heap: Global, switches: usize) -> Result<Vec<Set>, AllocError>
    requires { switches ≤ 64 }
    ensures { IfOk result (λ v. v.items ≡ map (λ s. 2 ^ s) (range_with_len 0 switches)) }
{
    (0..switches).map(Set::of).collect(heap)
}

// Which switches each switch has reached over these links, layer by layer; `before` has room for the sets of the layer
// before.
#[derive(Drop)]
pub(crate) struct Layers<'a> {
    links: &'a [Link],
    before: Vec<Set>,
    sets: Vec<Set>,
    ghost same: { vec_len before ≡ vec_len sets },
    ghost linked: { Linked (graph_with (vec_len sets) links.now) },
}

impl<'a> Layers<'a> {
    ghost use Rattle.graph.specs.Reach.{over};

    // At first each switch has reached itself.
    pub(crate) fn start(
        heap: Global,
        switches: usize,
        links: &'a [Link],
    ) -> Result<Layers<'a>, AllocError>
        requires { Linked (graph_with switches links.now) }
        ensures { IfOk result (λ y. (over y ≡ graph_with switches links.now) × Reached (over y) 0 y.sets.items) }
    {
        let sets = alone(heap, switches)?;
        let before = vec![in heap; Set::empty(); switches]?;
        Ok(Layers {
            links,
            before,
            sets,
        })
    }

    // One layer more: each switch reaches what its neighbors had reached.
    fn layer(&mut self)
        ensures same { over self.new ≡ over self.old }
        ensures more { (j : ℕ) → Reached (over self.old) j self.old.sets.items → Reached (over self.old) (suc j) self.new.sets.items }
    {
        let Layers {
            links,
            before,
            sets,
        } = self;
        before.copy_from_slice(sets);
        for link in *links {
            sets[usize::from(link.from)].add(before[usize::from(link.to)]);
        }
    }

    // The first switch that has reached all.
    fn first_full(&self) -> Option<usize>
        ensures { Finds (λ s. every (has (slice_index self.now.sets.items s)) (over self.now).n) (over self.now).n result }
    {
        let switches = self.sets.len();
        self.sets.iter().position(|set| set.is_full(switches))
    }

    // The root, the first switch, layer by layer, that has reached all; or the lowest that switch 0 never reaches.
    pub(crate) fn join(mut self) -> Result<usize, NotJoined>
        requires { Reached (over self) 0 self.sets.items }
        ensures { MatchResult result (λ r. (r ≡ root (over self.entry)) × (r < (over self.entry).n) × Joined (over self.entry)) (λ e. Lost (over self.entry) e.lost) }
    {
        for _j in 1..self.sets.len() {
            if let Some(root) = self.first_full() {
                return Ok(root);
            }
            self.layer();
        }
        match self.first_full() {
            Some(root) => Ok(root),
            None => Err(NotJoined {
                lost: self.sets[0].lowest_missing(self.sets.len()).unwrap(),
            }),
        }
    }

    // One more for each switch that has not reached the root.
    fn count(&self, root: usize, levels: &mut [u8])
        requires same { length levels.old ≡ vec_len self.now.sets }
        requires small { All (λ l. l < 255) levels.old }
        ensures { (s : ℕ) → s < vec_len self.now.sets → slice_index levels.new s ≡ slice_index levels.old s + (if has (slice_index self.now.sets.items s) root then 0 else 1) }
    {
        // Over a zip of `levels` and `sets` the proof would not know what `levels` holds.
        for (s, level) in levels.iter_mut().enumerate() {
            if !self.sets[s].has(root) {
                *level += 1;
            }
        }
    }

    // The level of each switch: in how many layers it has not reached the root.
    pub(crate) fn levels(mut self, heap: Global, root: usize) -> Result<Vec<u8>, AllocError>
        requires below { root < (over self).n }
        requires start { Reached (over self) 0 self.sets.items }
        ensures { IfOk result (λ v. Levelled (over self.entry) root v.items) }
    {
        let mut levels = vec![in heap; 0u8; self.sets.len()]?;
        for _j in 0..self.sets.len() {
            self.count(root, &mut levels);
            self.layer();
        }
        Ok(levels)
    }
}
