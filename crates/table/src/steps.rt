ghost use Rattle.std.specs.Prelude.{◌≡◌, ◌↔◌, ◌+◌, ◌<◌, All, IsTrue, IfOk};
ghost use Rattle.table.specs.Cells.{Layer};
ghost use Rattle.table.specs.Swept.{Layers, Looks, Steps, Underway, swept_graph, swept_up};

use crate::states::State;
use crate::sweep::Sweep;
use crate::ways::{goes_up, link, links};
use graph::Link;
use std::alloc::{AllocError, Global};
use tree::Tree;

impl<'a> Sweep<'a> {
    // At first each state has reached its own switch.
    pub(crate) fn new(heap: Global, tree: &'a Tree) -> Result<Sweep<'a>, AllocError>
        ensures { IfOk result (λ w. (w.tree.now ≡ tree.now) × Layer (swept_graph w) (swept_up w) 0 0 w.states.items) }
    {
        let n = tree.cabling.switches;
        let mut states = Vec::new(heap);
        // not a chain: of what `try_collect` gathers the proof learns too little
        for i in 0..n + n {
            states.push(State::new(heap, n, i % n)?)?;
        }
        Ok(Sweep { tree, states })
    }

    // Link k leads from state x to state y: what y had reached is added to what x has.
    fn step(&mut self, x: usize, y: usize, k: u16)
        requires x { x < (swept_graph self.old).n + (swept_graph self.old).n }
        requires y { y < (swept_graph self.old).n + (swept_graph self.old).n }
        ensures { Steps self.old x y k self.new }
    {
        let more = self.states[y].before;
        self.states[x].add(more, k);
    }

    // Link k is looked at from each state from which it may be taken: links up only where none down was taken before.
    fn look(&mut self, k: usize)
        requires { k < (swept_graph self.old).links }
        ensures { Looks self.old k self.new }
    {
        let n = self.tree.cabling.switches;
        let Link { from, to } = link(self.tree, k);
        let (begin, end) = (usize::from(from), usize::from(to));
        let number = k as u16;
        if goes_up(self.tree, k) {
            self.step(begin, end, number);
        } else {
            self.step(begin, n + end, number);
            self.step(n + begin, n + end, number);
        }
    }

    // A layer begins: what each state has reached is kept beside.
    fn begin(&mut self)
        ensures { Underway self.old 0 self.new }
    {
        for state in self.states.iter_mut() {
            state.before = state.reached;
        }
    }

    // One layer more: every link is looked at.
    pub(crate) fn layer(&mut self)
        ensures { Layers self.old self.new }
    {
        self.begin();
        for k in 0..links(self.tree) {
            self.look(k);
        }
    }

    // Whether the last layer added nothing to any state.
    pub(crate) fn is_still(&self) -> bool
        ensures { IsTrue result ↔ All (λ s. s.before ≡ s.reached) self.now.states.items }
    {
        self.states
            .iter()
            .all(|state| state.before == state.reached)
    }
}
