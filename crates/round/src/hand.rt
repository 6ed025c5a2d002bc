ghost use Rattle.std.specs.Prelude.{◌≡◌, ◌+◌, ◌<◌, ◌≤◌, vec_len, vec_capacity};
ghost use Rattle.machine.specs.Round.{all_handed, handed_over};
ghost use Rattle.net.specs.Net.{channels};
ghost use Rattle.round.specs.Fabric.{net_at, state_of};

use crate::fabric::Fabric;
use net::{Came, Entry};

impl Fabric {
    // Channel c hands over its first block if the table says here.
    fn hand_over(&mut self, c: usize)
        requires within { c < channels (net_at self.old) }
        requires room { vec_len self.old.came < vec_capacity self.old.came }
        ensures after { state_of self.new ≡ handed_over (net_at self.old) c (state_of self.old) }
        ensures plan { self.new.plan ≡ self.old.plan }
        ensures len { vec_len self.new.came ≤ vec_len self.old.came + 1 }
        ensures capacity { vec_capacity self.new.came ≡ vec_capacity self.old.came }
    {
        let Some(block) = self.first(c) else {
            return;
        };
        if let Entry::Here = self.plan.entry(c, block.place as usize) {
            self.take(c);
            self.came.push_reserved(Came {
                block,
                channel: c as u16,
                round: self.rounds,
            });
        }
    }

    // Each channel, in rising number, hands over its first block if the table says here.
    pub(crate) fn hand_all(&mut self)
        requires room { vec_len self.old.came + channels (net_at self.old) ≤ vec_capacity self.old.came }
        ensures after { state_of self.new ≡ all_handed (net_at self.old) (channels (net_at self.old)) (state_of self.old) }
        ensures plan { self.new.plan ≡ self.old.plan }
    {
        for c in 0..self.channels() {
            self.hand_over(c);
        }
    }
}
