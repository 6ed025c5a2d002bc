ghost use Rattle.std.specs.Prelude.{◌≡◌, ◌+◌, ◌^◌, ◌<◌, ◌≤◌, length, is_ok, if◌then◌else◌, Some, None, MatchOption, MatchResult, nat_lt};
ghost use Rattle.machine.specs.Promise.{Past};
ghost use Rattle.round.specs.Fabric.{net_at, state_of};

use crate::error::Refusal;
use crate::fabric::Fabric;
use net::{Block, Came, Plan};
use std::alloc::Global;
use store::Store;

// What waits at a door is outside, up to this many blocks.
const MOST_WAITING: usize = 4096;

// A fabric that is run by its plan. Its state is one that some script came to.
#[derive(Drop)]
pub struct Running {
    pub(crate) fabric: Fabric,
    ghost past: { ∥ Past (net_at fabric) (state_of fabric) ∥₁ },
}

// A link as it stands: the store at its far end, the places of it that the near end knows to be free, and the channel
// from which it looks round next.
#[derive(Clone, Copy)]
pub struct LinkView<'a> {
    pub store: &'a Store,
    pub free: u8,
    pub turn: u16,
}

impl Running {
    ghost use Rattle.machine.specs.Promise.{Kept};
    ghost use Rattle.machine.specs.Round.{enter, round, start};
    ghost use Rattle.round.specs.Refused.{Bars, BlockRefuses, RoundRefuses, StartRefuses, Welcome};
    ghost use Rattle.round.specs.Running.{net_in, plan_in, state_in};
    ghost use Rattle.store.specs.Store.{items};

    // A fabric for a plan, with nothing in it.
    pub fn start(heap: Global, plan: Plan) -> Result<Running, Refusal>
        ensures { MatchResult result (λ g. (plan_in g ≡ plan) × (state_in g ≡ start (net_in g)) × Kept (net_in g) (state_in g)) StartRefuses }
    {
        let fabric = Fabric::empty(heap, plan)?;
        Ok(Running { fabric })
    }

    // Why a block is not welcome, the first cause of several; want of memory is none of them.
    pub fn why_not(&self, block: Block) -> Option<Refusal>
        ensures { MatchOption result (Welcome (net_in self.now) (state_in self.now) block) (Bars (net_in self.now) (state_in self.now) block) }
    {
        let Some(waiting) = self.waiting_at(block.door as usize) else {
            return Some(Refusal::NoDoor);
        };
        if self.plan().layout.places <= block.place as usize {
            return Some(Refusal::NoPlace);
        }
        if MOST_WAITING <= waiting {
            return Some(Refusal::DoorFull);
        }
        None
    }

    // Lets a block in: it is put behind what waits at its door.
    pub fn let_in(&mut self, block: Block) -> Result<(), Refusal>
        ensures answer { MatchResult result (λ _. Welcome (net_in self.old) (state_in self.old) block) (BlockRefuses (net_in self.old) (state_in self.old) block) }
        ensures plan { plan_in self.new ≡ plan_in self.old }
        ensures after { state_in self.new ≡ (if is_ok result then enter (net_in self.old) block (state_in self.old) else state_in self.old) }
        ensures kept { Kept (net_in self.new) (state_in self.new) }
    {
        if let Some(cause) = self.why_not(block) {
            return Err(cause);
        }
        self.fabric.let_in(block)?;
        Ok(())
    }

    // Plays a round, whole or not at all.
    pub fn round(&mut self) -> Result<(), Refusal>
        ensures answer { MatchResult result (λ _. (state_in self.old).round + 1 < 2 ^ 64) (RoundRefuses (state_in self.old)) }
        ensures plan { plan_in self.new ≡ plan_in self.old }
        ensures after { state_in self.new ≡ (if is_ok result then round (net_in self.old) (state_in self.old) else state_in self.old) }
        ensures kept { Kept (net_in self.new) (state_in self.new) }
    {
        self.fabric.round()
    }

    // All that came, in the order in which it was handed over.
    pub fn came(&self) -> &[Came]
        ensures { result.now ≡ (state_in self.now).came }
    {
        self.fabric.came.as_slice()
    }

    // How many blocks wait at a door, where it is there.
    pub fn waiting_at(&self, door: usize) -> Option<usize>
        ensures { result ≡ (if nat_lt door (net_in self.now).doors then Some (length ((state_in self.now).queue ((net_in self.now).links + door))) else None) }
    {
        let waiting = self.fabric.doors.get(door)?;
        Some(waiting.len())
    }

    // How many rounds were played.
    pub fn rounds(&self) -> u64
        ensures { result ≡ (state_in self.now).round }
    {
        self.fabric.rounds
    }

    // The plan that is run.
    pub fn plan(&self) -> &Plan
        ensures { result.now ≡ plan_in self.now }
    {
        &self.fabric.plan
    }

    // A link as it stands, where it is there.
    pub fn link(&self, e: usize) -> Option<LinkView<'_>>
        ensures { MatchOption result ((net_in self.now).links ≤ e) (λ v. (e < (net_in self.now).links) × (items v.store.now ≡ (state_in self.now).queue e) × (v.free ≡ (state_in self.now).free e) × (v.turn ≡ (state_in self.now).turn e)) }
    {
        let link = self.fabric.links.get(e)?;
        Some(LinkView {
            store: &link.store,
            free: link.credit.free(),
            turn: link.turn,
        })
    }
}
