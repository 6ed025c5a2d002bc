ghost use Rattle.std.specs.Prelude.{◌≡◌, ◌&&◌, if◌then◌else◌, Some, None, MatchResult, nat_lt};
ghost use Rattle.net.specs.Layout.{net_of};
ghost use Rattle.net.specs.Net.{channels};
ghost use Rattle.machine.specs.Waits.{patience as «patience-spec», wait as «wait-spec»};
ghost use Rattle.waits.specs.Refusing.{Why};
ghost use Rattle.waits.specs.Working.{AllSoon, Complete, Within};

use crate::error::WaitError;
use crate::feeding::Feeding;
use crate::patience::Patience;
use net::Plan;
use std::alloc::Global;

// A plan with the patience of each of its channels. No patience is above the limit, and no wait with nothing before.
#[derive(Drop)]
pub struct Bounds {
    pub plan: Plan,
    found: Vec<u64>,
    ghost complete: { Complete (net_of plan.layout) found.items },
    ghost soon: { AllSoon (net_of plan.layout) },
}

impl Bounds {
    // Works out the bounds of a plan, and refuses it where one of them is too long.
    pub fn new(heap: Global, plan: Plan) -> Result<Bounds, WaitError>
        ensures { MatchResult result (λ b. (b.plan ≡ plan) × Within (net_of plan.layout)) (λ e. Why (net_of plan.layout) e) }
    {
        let found = Feeding::of(heap, &plan)?.patiences(heap)?;
        let patience = Patience {
            plan: &plan,
            found: &found,
        };
        if patience.slow().is_some() {
            return Err(WaitError::TooLong);
        }
        Ok(Bounds { plan, found })
    }

    // The most rounds that a block stands first in channel c, if there is such a channel.
    pub fn patience(&self, c: usize) -> Option<u64>
        ensures { result ≡ (if nat_lt c (channels (net_of self.now.plan.layout)) then Some («patience-spec» (net_of self.now.plan.layout) c) else None) }
    {
        self.found.get(c).copied()
    }

    // The most rounds until a block for place p has come that has so many others before it in channel c, if there are such
    // a channel and place.
    pub fn wait(&self, before: u16, c: usize, p: usize) -> Option<u64>
        ensures { result ≡ (if nat_lt c (channels (net_of self.now.plan.layout)) && nat_lt p self.now.plan.layout.places then Some («wait-spec» (net_of self.now.plan.layout) before c p) else None) }
    {
        if c < self.found.len() && p < self.plan.layout.places {
            let patience = Patience {
                plan: &self.plan,
                found: &self.found,
            };
            Some(patience.wait(before, c, p))
        } else {
            None
        }
    }

    // The plan alone, for a fabric to run by.
    pub fn into_plan(self) -> Plan
        ensures { result ≡ self.plan }
    {
        let Bounds { plan, found: _ } = self;
        plan
    }
}
