use graph::{Cable, CableError, Cabling};
use net::Entry;
use ring::Verdict;
use std::alloc::Global;
use std::process::Abort;
use std::test::Fail;
use table::layout;

// An 8 by 8 grid numbered row by row: cables along the rows first, then along the columns.
fn grid(heap: Global) -> Result<Vec<Cable>, Fail> {
    let along = (0..64u8)
        .filter(|a| *a % 8 != 7)
        .map(|a| Cable { a, b: a + 1 });
    let across = (0..56u8).map(|a| Cable { a, b: a + 8 });
    Ok(along.chain(across).collect(heap)?)
}

// The ring of four with links 0 to 3 and doors 4 to 7: link k ends at switch k + 1, and every block goes round to its place.
fn all_round(heap: Global) -> Result<Vec<Entry>, Fail> {
    let mut table = Vec::new(heap);
    for end in [1u16, 2, 3, 0, 0, 1, 2, 3] {
        for place in 0..4u16 {
            table.push(if place == end {
                Entry::Here
            } else {
                Entry::Link(end)
            })?;
        }
    }
    Ok(table)
}

// A table that was not made here.
#[derive(Clone, Copy)]
struct Foreign<'a> {
    entries: &'a [Entry],
    channels: usize,
    places: usize,
}

impl Foreign<'_> {
    fn verdict(&self, heap: Global) -> Result<Verdict, Fail> {
        ring::find(heap, self.entries, self.channels, self.places).map_err(|_| Fail::new("refused"))
    }

    // Its smallest ring has these members.
    fn check_ring(&self, rt: &impl Abort, heap: Global, members: &[u16]) -> Result<(), Fail> {
        let Verdict::Ring(found) = self.verdict(heap)? else {
            return Err(Fail::new("no ring"));
        };
        assert!(rt; found.as_slice() == members);
        Ok(())
    }

    // It has no ring, and each channel has a rank.
    fn check_no_ring(&self, rt: &impl Abort, heap: Global) -> Result<(), Fail> {
        let Verdict::Ranks(ranks) = self.verdict(heap)? else {
            return Err(Fail::new("a ring"));
        };
        assert!(rt; ranks.len() == self.channels);
        Ok(())
    }
}

#[test]
fn root_of_a_grid(rt: HostRuntime) -> Result<(), Fail> {
    let heap = rt.alloc();
    let cables = grid(heap)?;
    assert!(rt; cables.len() == 112);
    let cabling = Cabling::new(heap, 64, cables.as_slice()).map_err(|_| Fail::new("refused"))?;
    assert!(rt; cabling.root == 27);
    Ok(())
}

#[test]
fn halves_not_joined(rt: HostRuntime) -> Result<(), Fail> {
    let cables = [Cable { a: 0, b: 2 }, Cable { a: 3, b: 1 }];
    let Err(CableError::Lost { switch }) = Cabling::new(rt.alloc(), 4, &cables) else {
        return Err(Fail::new("not refused for a switch that is lost"));
    };
    assert!(rt; switch == 1);
    Ok(())
}

#[test]
fn lower_of_two_cables(rt: HostRuntime) -> Result<(), Fail> {
    let cables = [Cable { a: 0, b: 1 }, Cable { a: 0, b: 1 }];
    let net = layout(rt.alloc(), 2, &cables, 2).map_err(|_| Fail::new("refused"))?;
    let links = net
        .table
        .iter()
        .filter(|entry| matches!(**entry, Entry::Link(_)));
    assert!(rt; links.count() == 2);
    assert!(rt;
        net.table
            .iter()
            .all(|entry| matches!(*entry, Entry::Here | Entry::Link(0 | 1)))
    );
    Ok(())
}

#[test]
fn ring_of_one(rt: HostRuntime) -> Result<(), Fail> {
    let table = Foreign {
        entries: &[Entry::Link(1), Entry::Link(1), Entry::Link(0)],
        channels: 3,
        places: 1,
    };
    table.check_ring(&rt, rt.alloc(), &[1])
}

#[test]
fn first_of_two_rings(rt: HostRuntime) -> Result<(), Fail> {
    let table = Foreign {
        entries: &[
            Entry::Link(3),
            Entry::Link(2),
            Entry::Link(1),
            Entry::Link(0),
        ],
        channels: 4,
        places: 1,
    };
    table.check_ring(&rt, rt.alloc(), &[0, 3])
}

#[test]
fn ring_of_four(rt: HostRuntime) -> Result<(), Fail> {
    let entries = all_round(rt.alloc())?;
    let table = Foreign {
        entries: entries.as_slice(),
        channels: 8,
        places: 4,
    };
    table.check_ring(&rt, rt.alloc(), &[0, 1, 2, 3])
}

#[test]
fn no_channels(rt: HostRuntime) -> Result<(), Fail> {
    let table = Foreign {
        entries: &[],
        channels: 0,
        places: 0,
    };
    table.check_no_ring(&rt, rt.alloc())
}

#[test]
fn layout_has_no_ring(rt: HostRuntime) -> Result<(), Fail> {
    let cables = [
        Cable { a: 0, b: 1 },
        Cable { a: 1, b: 2 },
        Cable { a: 2, b: 3 },
        Cable { a: 3, b: 0 },
        Cable { a: 1, b: 3 },
    ];
    let net = layout(rt.alloc(), 4, &cables, 1).map_err(|_| Fail::new("refused"))?;
    let table = Foreign {
        entries: net.table.as_slice(),
        channels: 14,
        places: 4,
    };
    table.check_no_ring(&rt, rt.alloc())
}
