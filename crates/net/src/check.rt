ghost use Rattle.std.specs.Prelude.{Decides, MatchResult};
ghost use Rattle.net.specs.Layout.{AllRise, Sized};
ghost use Rattle.net.specs.Planned.{Refuses};

use crate::layout::Layout;
use crate::rows::Rows;
use crate::{PlanError, limits};

impl Layout {
    // Takes the layout, or tells the first cause to refuse it. Memory is not asked for here.
    pub(crate) fn check(&self) -> Result<(), PlanError>
        ensures { MatchResult result (λ _. Sized self.now × AllRise self.now) (λ e. Refuses self.now e) }
    {
        if !self.sized() {
            return Err(PlanError::Sizes);
        }
        let rows = Rows { layout: self };
        match rows.falls() {
            Some((channel, place)) => Err(PlanError::Falls { channel, place }),
            None => Ok(()),
        }
    }

    fn sized(&self) -> bool
        ensures { Decides result (Sized self.now) }
    {
        self.links <= limits::CHANNELS
            && self.doors <= limits::DOORS
            && self.links + self.doors <= limits::CHANNELS
            && self.places <= limits::PLACES
            && 0 < self.room
            && self.room <= limits::ROOM
            && self.table.len() == (self.links + self.doors) * self.places
            && self.ranks.len() == self.links + self.doors
            && self.ends.len() == self.links
    }
}
