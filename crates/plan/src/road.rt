ghost use Rattle.std.specs.Prelude.{◌≡◌, ◌+◌, ◌&&◌, is_some, IfSome, IfOk, if◌then◌else◌, Some, None, nat_lt};
ghost use Rattle.machine.specs.Waits.{wait};
ghost use Rattle.net.specs.Layout.{net_of};
ghost use Rattle.waits.specs.Laws.{Road};

use crate::hall::Hall;
use net::{Entry, Plan};
use std::alloc::{AllocError, Global};

// The links that the table walks from channel c for place p.
fn road_from(heap: Global, plan: &Plan, c: usize, p: usize) -> Result<Vec<u16>, AllocError>
    ensures { IfOk result (λ v. Road (net_of plan.now.layout) p c v.items) }
{
    let mut road = Vec::new(heap);
    let mut at = c;
    while let Entry::Link(e) = plan.entry(at, p) {
        road.push(e)?;
        at = e as usize;
    }
    Ok(road)
}

impl Hall {
    // The links of the road from a door to a place, if there are such.
    pub fn road(
        &self,
        heap: Global,
        door: usize,
        place: usize,
    ) -> Result<Option<Vec<u16>>, AllocError>
        ensures there { IfOk result (λ o. is_some o ≡ (nat_lt door self.now.bounds.plan.layout.doors && nat_lt place self.now.bounds.plan.layout.places)) }
        ensures road { IfOk result (λ o. IfSome o (λ v. Road (net_of self.now.bounds.plan.layout) place (self.now.bounds.plan.layout.links + door) v.items)) }
    {
        let layout = &self.bounds.plan.layout;
        if door < layout.doors && place < layout.places {
            Ok(Some(road_from(heap, &self.bounds.plan, layout.links + door, place)?))
        } else {
            Ok(None)
        }
    }

    // The wait from a door to a place with nothing before, if there are such.
    pub fn wait(&self, door: usize, place: usize) -> Option<u64>
        ensures { result ≡ (if nat_lt door self.now.bounds.plan.layout.doors && nat_lt place self.now.bounds.plan.layout.places then Some (wait (net_of self.now.bounds.plan.layout) 0 (self.now.bounds.plan.layout.links + door) place) else None) }
    {
        let layout = &self.bounds.plan.layout;
        if door < layout.doors {
            self.bounds.wait(0, layout.links + door, place)
        } else {
            None
        }
    }
}
