ghost use Rattle.std.specs.Prelude.{◌≡◌, ◌<◌};

// How many channels feed a link, and which of them was counted last: one that sends the blocks of many places over the
// link feeds it once. In small numbers, since a plan may have tens of thousands of links.
#[derive(Clone, Copy)]
pub(crate) struct Feeders {
    pub(crate) number: u32,
    last: Option<u16>,
}

impl Feeders {
    ghost use Rattle.waits.specs.Feeding.{with};

    pub(crate) const NONE: Feeders = Feeders {
        number: 0,
        last: None,
    };

    // Counts a channel, unless it is the one that was counted last.
    pub(crate) fn count(&mut self, channel: u16)
        requires { self.old.number < 65536 }
        ensures { self.new ≡ with channel self.old }
    {
        if self.last != Some(channel) {
            self.number += 1;
            self.last = Some(channel);
        }
    }
}
