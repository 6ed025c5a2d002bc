ghost use Rattle.std.specs.Prelude.{◌≡◌};
ghost use Rattle.net.specs.Order.{serving};
ghost use Rattle.net.specs.Layout.{AllRise, Sized, net_of};

use crate::layout::Layout;

// A layout whose sizes are right and whose ranks rise, with the order in which its links are served.
#[derive(Drop)]
pub struct Plan {
    pub layout: Layout,
    pub order: Vec<u16>,
    ghost sized: { Sized layout },
    ghost rising: { AllRise layout },
    ghost ordered: { order.items ≡ serving (net_of layout) },
}
