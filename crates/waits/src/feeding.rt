ghost use Rattle.std.specs.Prelude.{◌≡◌, ◌*◌, ◌<◌, ◌≤◌, replicate, IfOk, MatchOption, MatchResult};
ghost use Rattle.net.specs.Layout.{net_of};
ghost use Rattle.net.specs.Net.{channels};
ghost use Rattle.machine.specs.Waits.{patience};
ghost use Rattle.waits.specs.Feeding.{Fed};
ghost use Rattle.waits.specs.Refusing.{Why};
ghost use Rattle.waits.specs.Working.{longest, Partly, Stays, Worked, Complete};

use crate::LIMIT;
use crate::error::WaitError;
use crate::feeders::Feeders;
use net::{Entry, Plan};
use std::alloc::{AllocError, Global};

// n times as long, where that is within the limit; it is tested before it could wrap.
fn times(n: u64, long: u64) -> Option<u64>
    ensures { MatchOption result (longest < n * long) (λ v. (v ≡ n * long) × (v ≤ longest)) }
{
    n.checked_mul(long).filter(|product| *product <= LIMIT)
}

// A plan, with how many channels feed each of its links.
#[derive(Drop)]
pub(crate) struct Feeding<'a> {
    plan: &'a Plan,
    feeders: Vec<Feeders>,
    ghost fed: { Fed (net_of plan.now.layout) feeders.items },
}

impl<'a> Feeding<'a> {
    // Counts in one pass over the table.
    pub(crate) fn of(heap: Global, plan: &'a Plan) -> Result<Feeding<'a>, AllocError>
        ensures { IfOk result (λ f. f.plan.now ≡ plan.now) }
    {
        let mut feeders = vec![in heap; Feeders::NONE; plan.layout.links]?;
        for c in 0..plan.layout.links + plan.layout.doors {
            for p in 0..plan.layout.places {
                if let Entry::Link(e) = plan.entry(c, p) {
                    feeders[e as usize].count(c as u16);
                }
            }
        }
        Ok(Feeding { plan, feeders })
    }
}

impl Feeding<'_> {
    // The patience of each channel.
    pub(crate) fn patiences(&self, heap: Global) -> Result<Vec<u64>, WaitError>
        ensures { MatchResult result (λ v. Complete (net_of self.now.plan.now.layout) v.items) (λ e. Why (net_of self.now.plan.now.layout) e) }
    {
        let layout = &self.plan.layout;
        let mut found = vec![in heap; 0; layout.links + layout.doors]?;
        self.work_all(&mut found)?;
        Ok(found)
    }

    // Works out the patience of every channel, in slots that come in as zeros.
    fn work_all(&self, found: &mut [u64]) -> Result<(), WaitError>
        requires { found.old ≡ replicate (channels (net_of self.now.plan.now.layout)) 0 }
        ensures answer { MatchResult result (λ _. Complete (net_of self.now.plan.now.layout) found.new) (λ e. Why (net_of self.now.plan.now.layout) e) }
        ensures left { Partly (net_of self.now.plan.now.layout) found.new }
    {
        let layout = &self.plan.layout;
        for c in 0..layout.links + layout.doors {
            self.work_out(found, c).ok_or(WaitError::TooLong)?;
        }
        Ok(())
    }

    // The patience of channel c, if it is not too long: the largest, over its places, of 1 and of what the link asks that
    // the table sends them over. Each channel is worked out once. Slots are lent as plain numbers, and 0 is no channel's
    // patience, so it says that nothing is worked out yet. Ranks rise along the table, so it ends, and calls are at most
    // as deep as a road is long.
    fn work_out(&self, found: &mut [u64], c: usize) -> Option<u64>
        requires channel { c < channels (net_of self.now.plan.now.layout) }
        requires partly { Partly (net_of self.now.plan.now.layout) found.old }
        ensures partly { Partly (net_of self.now.plan.now.layout) found.new }
        ensures stays { Stays found.old found.new }
        ensures answer { MatchOption result (longest < patience (net_of self.now.plan.now.layout) c) (λ v. Worked (net_of self.now.plan.now.layout) c found.new v) }
    {
        if found[c] != 0 {
            return Some(found[c]);
        }
        let mut most: u64 = 1;
        for p in 0..self.plan.layout.places {
            if let Entry::Link(e) = self.plan.entry(c, p) {
                let there = self.work_out(found, e as usize)?;
                most = most.max(times(self.feeders[e as usize].number as u64, there)?);
            }
        }
        found[c] = most;
        Some(most)
    }
}
