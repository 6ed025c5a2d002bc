ghost use Rattle.std.specs.Prelude.{◌≡◌, ℕ, All, ◌+◌, ◌^◌, ◌<◌, map, is_ok, if◌then◌else◌, vec_len, IfOk, MatchResult, slice_index};
ghost use Rattle.round.specs.Link.{size_of, turn_of};

use crate::error::Refusal;
use crate::link::Link;
use net::{Block, Came, Plan};
use std::alloc::{AllocError, Global};
use std::collections::VecDeque;

// Everything that a round changes, with the plan by which it goes: the links, what waits at each door, what came, and
// the rounds played.
#[derive(Drop)]
pub struct Fabric {
    pub(crate) plan: Plan,
    pub(crate) links: Vec<Link>,
    pub(crate) doors: Vec<VecDeque<Block>>,
    pub(crate) came: Vec<Came>,
    pub(crate) rounds: u64,
    ghost all_links: { vec_len links ≡ plan.layout.links },
    ghost all_doors: { vec_len doors ≡ plan.layout.doors },
    ghost sized: { All (λ l. size_of l ≡ plan.layout.room) links.items },
    ghost turned: { (e : ℕ) → e < plan.layout.links → slice_index (map turn_of links.items) e < plan.layout.links + plan.layout.doors },
}

impl Fabric {
    ghost use Rattle.machine.specs.Round.{enter, round, start};
    ghost use Rattle.net.specs.Heads.{head_of};
    ghost use Rattle.net.specs.Net.{channels};
    ghost use Rattle.round.specs.Fabric.{leaves, net_at, state_of};
    ghost use Rattle.round.specs.Refused.{RoundRefuses};

    // A fabric for a plan: stores and doors are empty, all credits are there, each turn is 0.
    pub(crate) fn empty(heap: Global, plan: Plan) -> Result<Fabric, AllocError>
        ensures { IfOk result (λ f. (f.plan ≡ plan) × (state_of f ≡ start (net_at f))) }
    {
        let room = plan.layout.room;
        let links = (0..plan.layout.links)
            .map(|_| Link::new(room))
            .collect(heap)?;
        let doors = (0..plan.layout.doors)
            .map(|_| VecDeque::new(heap))
            .collect(heap)?;
        Ok(Fabric {
            plan,
            links,
            doors,
            came: Vec::new(heap),
            rounds: 0,
        })
    }

    // How many channels there are: the links, then the doors.
    pub(crate) fn channels(&self) -> usize
        ensures { result ≡ channels (net_at self.now) }
    {
        self.plan.layout.links + self.plan.layout.doors
    }

    // The first block of a channel.
    pub(crate) fn first(&self, c: usize) -> Option<Block>
        ensures { result ≡ head_of ((state_of self.now).queue c) }
    {
        match self.links.get(c) {
            Some(link) => link.store.first(),
            None => self.doors.get(c - self.links.len())?.front().copied(),
        }
    }

    // Takes the first block out of a channel.
    pub(crate) fn take(&mut self, c: usize) -> Option<Block>
        requires { c < channels (net_at self.old) }
        ensures first { result ≡ head_of ((state_of self.old).queue c) }
        ensures after { state_of self.new ≡ leaves (net_at self.old) c result (state_of self.old) }
        ensures plan { self.new.plan ≡ self.old.plan }
        ensures came { self.new.came ≡ self.old.came }
    {
        let links = self.links.len();
        if c < links {
            self.links[c].take()
        } else {
            self.doors[c - links].pop_front()
        }
    }

    // Puts a block behind what waits at its door.
    pub(crate) fn let_in(&mut self, block: Block) -> Result<(), AllocError>
        requires { block.door < (net_at self.old).doors }
        ensures after { state_of self.new ≡ (if is_ok result then enter (net_at self.old) block (state_of self.old) else state_of self.old) }
        ensures plan { self.new.plan ≡ self.old.plan }
    {
        self.doors[block.door as usize].push_back(block)?;
        Ok(())
    }

    // A round: what has come is handed over, then links are served. Room for all that can come is made first, so that a round
    // is played whole or not at all.
    pub(crate) fn round(&mut self) -> Result<(), Refusal>
        ensures answer { MatchResult result (λ _. (state_of self.old).round + 1 < 2 ^ 64) (RoundRefuses (state_of self.old)) }
        ensures after { state_of self.new ≡ (if is_ok result then round (net_at self.old) (state_of self.old) else state_of self.old) }
        ensures plan { self.new.plan ≡ self.old.plan }
    {
        let count = self.rounds.checked_add(1).ok_or(Refusal::NoMoreRounds)?;
        let channels = self.channels();
        self.came.reserve(channels)?;
        self.rounds = count;
        self.hand_all();
        self.serve_all();
        Ok(())
    }
}
