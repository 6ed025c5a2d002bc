ghost use Rattle.std.specs.Prelude.{◌≡◌, ◌+◌, ◌^◌, ◌<◌, ltb, IfOk, IfErr, if◌then◌else◌, None, nat_lt, slice_index};
ghost use Rattle.net.specs.Layout.{net_of};
ghost use Rattle.play.specs.Games.{begin, fault_of};
ghost use Rattle.play.specs.Standing.{Takes, net_of_game, position_of};
ghost use Rattle.wire.specs.declared.fault.Fault.TheVariants.{NoLink, NoneMissing};
ghost use Rattle.wire.specs.declared.fault.WireError.TheVariants.{Memory};
ghost use Rattle.wire.specs.declared.script.Thing.TheVariants.{Block as «a_block», Round as «a_round»};

use crate::game::Game;
use net::{Block, Plan};
use round::{Refusal, Running};
use std::alloc::Global;
use wire::{Fault, Thing, WireError};

impl Game {
    // A game on a plan in which nothing was played: at first a door takes any name.
    pub(crate) fn new(heap: Global, plan: Plan) -> Result<Game, WireError>
        ensures net { IfOk result (λ g. net_of_game g ≡ net_of plan.layout) }
        ensures wants { IfErr result (λ e. e ≡ Memory) }
        ensures begins { IfOk result (λ g. position_of g ≡ begin (net_of plan.layout)) }
    {
        let fresh = vec![in heap; 0; plan.layout.doors]?;
        let running = Running::start(heap, plan).map_err(|_| WireError::Memory)?;
        Ok(Game { running, fresh })
    }

    // Whether a block's name is not above the last one let in at its door.
    fn is_old(&self, block: Block) -> bool
        ensures { result ≡ nat_lt block.name (slice_index self.now.fresh.items block.door) }
    {
        self.fresh
            .get(block.door as usize)
            .is_some_and(|fresh| (block.name as u64) < *fresh)
    }

    // The fault of a block, if it has one.
    fn block_fault(&self, block: Block) -> Option<Fault>
        ensures { result ≡ fault_of (net_of_game self.now) (position_of self.now) («a_block» block) }
    {
        match self.running.why_not(block) {
            Some(Refusal::NoDoor) => Some(Fault::NoDoor(block.door)),
            Some(Refusal::NoPlace) => Some(Fault::NoPlace(block.place)),
            _ if self.is_old(block) => Some(Fault::OldName(block.name)),
            Some(Refusal::DoorFull) => Some(Fault::DoorFull(block.door)),
            Some(Refusal::Memory | Refusal::NoMoreRounds) => unreachable(),
            None => None,
        }
    }

    // The fault of a thing, if it has one.
    pub(crate) fn fault(&self, thing: Thing) -> Option<Fault>
        ensures { result ≡ fault_of (net_of_game self.now) (position_of self.now) thing }
    {
        match thing {
            Thing::Block(block) => self.block_fault(block),
            Thing::Word(link) => Some(self.word_fault(link)),
            Thing::Round | Thing::Show => None,
        }
    }

    // In these rounds the word of a free place comes at once, so none is ever missing.
    fn word_fault(&self, link: u16) -> Fault
        ensures { result ≡ (if ltb link (net_of_game self.now).links then NoneMissing link else NoLink link) }
    {
        if (link as usize) < self.running.plan().layout.links {
            Fault::NoneMissing(link)
        } else {
            Fault::NoLink(link)
        }
    }

    // Lets in a block without a fault.
    fn let_in(&mut self, block: Block) -> Result<(), WireError>
        requires { fault_of (net_of_game self.old) (position_of self.old) («a_block» block) ≡ None }
        ensures { Takes («a_block» block) self.old result self.new }
    {
        self.running
            .let_in(block)
            .map_err(|_wanting| WireError::Memory)?;
        self.fresh[block.door as usize] = block.name as u64 + 1;
        Ok(())
    }

    // Plays a round; there are more numbers of rounds than a script has bytes.
    fn round(&mut self) -> Result<(), WireError>
        requires { (position_of self.old).state.round + 1 < 2 ^ 64 }
        ensures { Takes «a_round» self.old result self.new }
    {
        self.running.round().map_err(|_wanting| WireError::Memory)
    }

    // Plays a thing without a fault, whole or not at all.
    pub(crate) fn take(&mut self, thing: Thing) -> Result<(), WireError>
        requires fine { fault_of (net_of_game self.old) (position_of self.old) thing ≡ None }
        requires counted { (position_of self.old).state.round + 1 < 2 ^ 64 }
        ensures { Takes thing self.old result self.new }
    {
        match thing {
            Thing::Block(block) => self.let_in(block),
            Thing::Round => self.round(),
            Thing::Word(_) | Thing::Show => Ok(()),
        }
    }
}
