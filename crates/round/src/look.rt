ghost use Rattle.std.specs.Prelude.{◌≡◌, ◌<◌};
ghost use Rattle.machine.specs.Round.{look, wants};
ghost use Rattle.net.specs.Net.{channels};
ghost use Rattle.round.specs.Fabric.{net_at, state_of};

use crate::fabric::Fabric;
use net::Entry;

impl Fabric {
    // Whether the first block of channel c wants to go to link e.
    fn wants(&self, e: usize, c: usize) -> bool
        ensures { result ≡ wants (net_at self.now) e c ((state_of self.now).queue c) }
    {
        let Some(block) = self.first(c) else {
            return false;
        };
        match self.plan.entry(c, block.place as usize) {
            Entry::Here => false,
            Entry::Link(to) => e == to as usize,
        }
    }

    // The first channel whose first block wants to go to link e, from the link's turn on and beginning again at 0 after the
    // last.
    pub(crate) fn look(&self, e: usize) -> Option<usize>
        requires { e < (net_at self.now).links }
        ensures { result ≡ look (net_at self.now) e (state_of self.now).queue ((state_of self.now).turn e) (channels (net_at self.now)) }
    {
        let turn = self.links[e].turn as usize;
        let mut found = None;
        // Nested loops left by a label: the form of the look round is a rule of the project.
        'look: for &(from, to) in &[(turn, self.channels()), (0, turn)] {
            for c in from..to {
                if self.wants(e, c) {
                    found = Some(c);
                    break 'look;
                }
            }
        }
        found
    }
}
