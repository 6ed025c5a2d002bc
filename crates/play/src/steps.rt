ghost use Rattle.play.specs.Kept.{Steps};
ghost use Rattle.play.specs.Played.{Begins, IsSamePlay, OnCourse, Stops};
ghost use Rattle.play.specs.Standing.{net_of_game, position_of};
ghost use Rattle.plan.specs.Built.{Refuses};
ghost use Rattle.std.specs.Prelude.{◌≡◌, ◌<◌, ◌≤◌, length, IfSome, IfOk, MatchResult};

use crate::game::Game;
use crate::play::Play;
use crate::stop::Stop;
use plan::Hall;
use round::Running;
use std::alloc::Global;
use wire::{Thing, WireError, thing_at};

impl<'a> Play<'a> {
    // A script at its beginning, against the hall of a list of cables, unless that is refused.
    pub fn start(heap: Global, cables: &'a [u8], script: &'a [u8]) -> Result<Play<'a>, WireError>
        ensures answer { MatchResult result (Begins cables.now script.now) (Refuses cables.now) }
        ensures kept { IfOk result OnCourse }
    {
        let hall = Hall::lay(heap, cables)?;
        let game = Game::new(heap, hall.into_plan())?;
        Ok(Play {
            cables,
            script,
            at: 0,
            game,
        })
    }

    // Reads and plays the next thing of the script; at its end there is none. What is refused changes nothing.
    pub fn step(&mut self) -> Result<Option<Thing>, WireError>
        ensures answer { Steps (net_of_game self.old.game) self.old.script.now self.old.at (position_of self.old.game) result self.new.at (position_of self.new.game) }
        ensures on { IfOk result (λ o. IfSome o (λ _. self.old.at < self.new.at)) }
        ensures same { IsSamePlay self.old self.new }
        ensures kept { OnCourse self.new }
    {
        let at = self.at;
        if self.script.len() <= at {
            return Ok(None);
        }
        let (thing, to) = thing_at(self.script, at)?;
        if let Some(fault) = self.game.fault(thing) {
            return Err(WireError::Refused(fault.at(at)));
        }
        self.game.take(thing)?;
        self.at = to;
        Ok(Some(thing))
    }

    // Plays what is left of the script, and tells each thing once it is played, with the fabric as it then stands.
    pub fn play_out<E, F: FnMut(&Running, Thing) -> Result<(), E>>(
        &mut self,
        mut tell: F,
    ) -> Result<(), Stop<E>>
        requires { F.IsAlwaysCallable tell }
        ensures answer { MatchResult result (λ _. length self.new.script.now ≤ self.new.at) (Stops self.new) }
        ensures same { IsSamePlay self.old self.new }
        ensures kept { OnCourse self.new }
    {
        while let Some(thing) = self.step()? {
            tell(&self.game.running, thing).map_err(Stop::Told)?;
        }
        Ok(())
    }

    // The fabric as it stands.
    pub fn running(&self) -> &Running
        ensures { result.now ≡ self.now.game.running }
    {
        &self.game.running
    }
}
