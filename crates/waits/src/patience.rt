ghost use Rattle.std.specs.Prelude.{◌≡◌, suc, ◌+◌, ◌*◌, ◌^◌, ◌<◌, ◌≤◌, MatchOption};
ghost use Rattle.net.specs.Layout.{net_of};
ghost use Rattle.net.specs.Net.{channels};
ghost use Rattle.machine.specs.Waits.{onward, wait};
ghost use Rattle.waits.specs.Working.{longest, Complete, TooSlow, AllSoon};

use crate::LIMIT;
use net::{Entry, Plan, first_cell};

// What a full store takes, each of its blocks as long as the link is patient.
fn full_store(room: u8, long: u64) -> u64
    requires room { room ≤ 32 }
    requires long { long ≤ longest }
    ensures is { result ≡ room * long }
    ensures small { result ≤ 2 ^ 45 }
{
    u64::from(room) * long
}

// A plan with the patience of each of its channels, none of them too long.
#[derive(Clone, Copy)]
pub(crate) struct Patience<'a> {
    pub(crate) plan: &'a Plan,
    pub(crate) found: &'a [u64],
    ghost complete: { Complete (net_of plan.now.layout) found.now },
}

impl Patience<'_> {
    // What the full stores along the road from channel c to place p take. A road has at most as many links as there are,
    // and a store takes at most 2^5 times 2^40, so the sum stays below 2^61.
    fn along(&self, c: usize, p: usize) -> u64
        requires { c < channels (net_of self.now.plan.now.layout) }
        ensures is { result ≡ onward (suc self.now.plan.now.layout.links) (net_of self.now.plan.now.layout) c p }
        ensures small { result < 2 ^ 61 }
    {
        let mut at = c;
        let mut sum: u64 = 0;
        while let Entry::Link(e) = self.plan.entry(at, p) {
            at = e as usize;
            sum += full_store(self.plan.layout.room, self.found[at]);
        }
        sum
    }

    // The wait of a block for place p with so many others before it in channel c. The first product is at most 2^16 times
    // 2^40, and the road takes less than 2^61, so it does not wrap.
    pub(crate) fn wait(&self, before: u16, c: usize, p: usize) -> u64
        requires { c < channels (net_of self.now.plan.now.layout) }
        ensures { result ≡ wait (net_of self.now.plan.now.layout) before c p }
    {
        (u64::from(before) + 1) * self.found[c] + self.along(c, p)
    }

    // A door and a place between which the wait with nothing before is too long, if there are such.
    pub(crate) fn slow(&self) -> Option<(usize, usize)>
        ensures { MatchOption result (AllSoon (net_of self.now.plan.now.layout)) (λ x. TooSlow (net_of self.now.plan.now.layout) x.0 x.1) }
    {
        let layout = &self.plan.layout;
        first_cell(
            layout.doors,
            layout.places,
            |d, p| self.wait(0, layout.links + d, p) > LIMIT,
        )
    }
}
