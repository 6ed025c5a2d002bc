use crate::Cable;
use std::alloc::{AllocError, Global};

// A link leads from one switch to another.
#[derive(Clone, Copy, Debug, PartialEq, Eq)]
pub struct Link {
    pub from: u8,
    pub to: u8,
}

impl Link {
    ghost use Rattle.graph.specs.Cables.{links_of, there_and_back};
    ghost use Rattle.std.specs.Prelude.{◌≡◌, IfOk};

    // The two links of a cable: there, and back.
    fn both(cable: Cable) -> [Link; 2]
        ensures { result ≡ there_and_back cable }
    {
        let Cable { a, b } = cable;
        [Link { from: a, to: b }, Link { from: b, to: a }]
    }

    // The links of a list of cables.
    pub(crate) fn list(heap: Global, cables: &[Cable]) -> Result<Vec<Link>, AllocError>
        ensures { IfOk result (λ v. v.items ≡ links_of cables.now) }
    {
        let mut links = Vec::with_capacity(heap, 2 * cables.len())?;
        for cable in cables {
            links.extend_from_slice(&Link::both(*cable))?;
        }
        Ok(links)
    }
}
