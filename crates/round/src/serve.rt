ghost use Rattle.std.specs.Prelude.{◌≡◌, ◌+◌, ◌<◌, if◌then◌else◌, nat_lt};
ghost use Rattle.machine.specs.Round.{serve, all_served};
ghost use Rattle.net.specs.Order.{serving};
ghost use Rattle.round.specs.Fabric.{net_at, state_of};

use crate::fabric::Fabric;

// The channel after c, and 0 after the last.
fn following(c: usize, channels: usize) -> usize
    requires { c < channels }
    ensures { result ≡ (if nat_lt (c + 1) channels then c + 1 else 0) }
{
    if c + 1 < channels { c + 1 } else { 0 }
}

impl Fabric {
    // Link e takes one block if its credits say that there is a place.
    fn serve(&mut self, e: usize)
        requires { e < (net_at self.old).links }
        ensures after { state_of self.new ≡ serve (net_at self.old) e (state_of self.old) }
        ensures plan { self.new.plan ≡ self.old.plan }
    {
        if !self.links[e].has_credit() {
            return;
        }
        let Some(c) = self.look(e) else {
            return;
        };
        let Some(block) = self.take(c) else {
            unreachable!()
        };
        let turn = following(c, self.channels()) as u16;
        self.links[e].put(block, turn);
    }

    // The links in the order in which they are served.
    fn order(&self) -> &[u16]
        ensures { result.now ≡ serving (net_at self.now) }
    {
        &self.plan.order
    }

    // Links are served in the plan's order: highest rank first, among equals the lower number.
    pub(crate) fn serve_all(&mut self)
        ensures after { state_of self.new ≡ all_served (net_at self.old) (serving (net_at self.old)) (state_of self.old) }
        ensures plan { self.new.plan ≡ self.old.plan }
    {
        // By index, since each step changes self, in which the order stands
        for i in 0..self.order().len() {
            let e = self.order()[i] as usize;
            self.serve(e);
        }
    }
}
