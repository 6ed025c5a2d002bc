ghost use Rattle.std.specs.Prelude.{◌≡◌, ℕ, ◌+◌, ◌<◌, ◌≤◌, false, ◌&&◌, ◌==◌, if◌then◌else◌, MatchOption, slice_index, vec_len};

use crate::dependencies::Dependencies;

// For each channel how many channels the shortest way back from it to `to` has, itself among them, over channels not
// below `to`.
#[derive(Drop)]
pub(crate) struct Distances<'a> {
    pub(crate) graph: &'a Dependencies,
    pub(crate) to: usize,
    // 0 where no way is known, as `of` tells: with an Option a copy of `spread` in Rust took five times as long.
    pub(crate) numbers: Vec<u16>,
    // That they are right is said by `Near` in the clauses: up to which number changes from call to call.
    ghost inside: { to < graph.now.channels },
    ghost sized: { vec_len numbers ≡ graph.now.channels },
}

impl<'a> Distances<'a> {
    ghost use Rattle.ring.specs.Graph.{FeedsIn};
    ghost use Rattle.ring.specs.Layers.{Near, Source, Spread};

    // The ways back of at most `most` channels, told in a list that has room for the numbers; what it held is written over.
    // Its loops are faster where they are not made part of what calls it.
    #[inline(never)]
    pub(crate) fn back_to(
        graph: &'a Dependencies,
        to: usize,
        most: u16,
        mut numbers: Vec<u16>,
    ) -> Distances<'a>
        requires inside { to < graph.now.channels }
        requires some { 0 < most }
        requires few { most ≤ 321 }
        requires room { vec_len numbers ≡ graph.now.channels }
        ensures { (result.to ≡ to) × (result.graph ≡ graph.entry) × Near (FeedsIn graph.now) to most result.numbers.items }
    {
        numbers.fill(0);
        let mut back = Distances { graph, to, numbers };
        back.fill(most);
        back
    }

    // The list alone, for the next ways back.
    pub(crate) fn into_numbers(self) -> Vec<u16>
        ensures { vec_len result ≡ self.entry.graph.now.channels }
    {
        let Distances {
            graph: _,
            to: _,
            numbers,
        } = self;
        numbers
    }

    // Gives the numbers layer by layer; after the first layer that no channel is in there are no more.
    fn fill(&mut self, most: u16)
        requires some { 0 < most }
        requires few { most ≤ 321 }
        requires none { (x : ℕ) → slice_index self.old.numbers.items x ≡ 0 }
        ensures same { (self.new.to ≡ self.old.to) × (self.new.graph ≡ self.old.graph) }
        ensures near { Near (FeedsIn self.old.graph.now) self.old.to most self.new.numbers.items }
    {
        self.spread(self.to, 0);
        for k in 1..most {
            if !self.layer(k) {
                return;
            }
        }
    }

    // One layer: gives k + 1 to those that hand blocks to a channel of number k and have no number yet. Says whether
    // there is a channel of number k.
    fn layer(&mut self, k: u16) -> bool
        requires some { 0 < k }
        requires few { k ≤ 320 }
        requires near { Near (FeedsIn self.old.graph.now) self.old.to k self.old.numbers.items }
        ensures same { (self.new.to ≡ self.old.to) × (self.new.graph ≡ self.old.graph) }
        ensures near { Near (FeedsIn self.old.graph.now) self.old.to (k + 1) self.new.numbers.items }
        ensures none { result ≡ false → (x : ℕ) → slice_index self.new.numbers.items x ≡ k → ⊥ }
    {
        let mut found = false;
        for x in self.to..self.graph.channels {
            if self.numbers[x] == k {
                found = true;
                self.spread(x, k);
            }
        }
        found
    }

    // Gives k + 1 to the channels not below `to` that hand blocks to x and have no number yet.
    fn spread(&mut self, x: usize, k: u16)
        requires inside { x < self.old.graph.now.channels }
        requires few { k ≤ 320 }
        requires near { Near (FeedsIn self.old.graph.now) self.old.to k self.old.numbers.items }
        requires source { Source (FeedsIn self.old.graph.now) self.old.to x (k + 1) }
        ensures same { (self.new.to ≡ self.old.to) × (self.new.graph ≡ self.old.graph) }
        ensures spread { Spread (FeedsIn self.old.graph.now) self.old.to k x self.old.graph.now.channels self.old.numbers.items self.new.numbers.items }
    {
        let feeders = self.graph.feeders(x);
        // By index: of what `iter_mut().zip(feeders)` lends out a proof knows nothing afterwards.
        for y in self.to..self.graph.channels {
            self.numbers[y] = marked(feeders[y], self.numbers[y], k + 1);
        }
    }

    // How many channels the way back from x has, if there is one.
    pub(crate) fn of(&self, x: usize) -> Option<u16>
        requires { x < self.now.graph.now.channels }
        ensures { MatchOption result
            (slice_index self.now.numbers.items x ≡ 0)
            (λ k. (0 < k) × (slice_index self.now.numbers.items x ≡ k)) }
    {
        match self.numbers[x] {
            0 => None,
            k => Some(k),
        }
    }

    // How many members the shortest ring through `to` has, if they are fewer than `most`.
    pub(crate) fn members_below(&self, most: u16) -> Option<u16>
        ensures { MatchOption result
            (0 < slice_index self.now.numbers.items self.now.to → most ≤ slice_index self.now.numbers.items self.now.to)
            (λ k. (0 < k) × (k < most) × (slice_index self.now.numbers.items self.now.to ≡ k)) }
    {
        self.of(self.to).filter(|&members| members < most)
    }
}

// A channel's number after a look at it: the new one if it hands blocks on and had none. It is written in each case, so
// that the loop of `spread` has no branch.
fn marked(hands: bool, old: u16, new: u16) -> u16
    ensures { result ≡ (if hands && old == 0 then new else old) }
{
    if hands && old == 0 { new } else { old }
}
