ghost use Rattle.std.specs.Prelude.{◌≡◌, ◌++◌, IfOk, MatchResult, map, replicate};
ghost use Rattle.table.specs.Marked.{Tabled};
ghost use Rattle.table.specs.Promised.{LaidOut, Planned, Unlaid, Unplanned};

use crate::LayoutError;
use crate::sweep::Onward;
use crate::ways::links;
use graph::{Cable, Cabling};
use net::limits::ROOM;
use net::{Entry, Layout};
use std::alloc::{AllocError, Global};
use std::iter;
use tree::Tree;

// The kept table of a tree.
fn table_of(heap: Global, tree: &Tree) -> Result<Vec<Entry>, AllocError>
    ensures { IfOk result (λ v. Tabled tree.now v.items) }
{
    let n = tree.cabling.switches;
    let onward = Onward::new(heap, tree)?;
    let met = onward.met(heap)?;
    let mut table = vec![in heap; Entry::Here; (links(tree) + n) * n]?;
    onward.fill_table(&met, &mut table);
    Ok(table)
}

// The rank of each link, and 0 for each door.
fn ranks_of(heap: Global, tree: &Tree) -> Result<Vec<u32>, AllocError>
    ensures { IfOk result (λ v. v.items ≡ map (λ w. w.rank) tree.now.ways.items ++ replicate tree.now.cabling.switches 0) }
{
    let doors = iter::repeat_n(0, tree.cabling.switches);
    tree.ways
        .iter()
        .map(|way| way.rank)
        .chain(doors)
        .collect(heap)
}

// Where each link ends.
fn ends_of(heap: Global, tree: &Tree) -> Result<Vec<u8>, AllocError>
    ensures { IfOk result (λ v. v.items ≡ map (λ l. l.to) tree.now.cabling.links.items) }
{
    tree.cabling.links.iter().map(|link| link.to).collect(heap)
}

// The layout of a tree's net, whatever its root: the kept table, ranks, where links end, and stores for `room` blocks.
pub fn lay(heap: Global, tree: &Tree, room: u8) -> Result<Layout, LayoutError>
    ensures { MatchResult result (λ l. LaidOut tree.now room l) (λ e. Unlaid room e) }
{
    if room == 0 || ROOM < room {
        return Err(LayoutError::Room);
    }
    let n = tree.cabling.switches;
    Ok(Layout {
        links: links(tree),
        doors: n,
        places: n,
        room,
        table: table_of(heap, tree)?,
        ranks: ranks_of(heap, tree)?,
        ends: ends_of(heap, tree)?,
    })
}

// The layout of a list of cables with the root of its tree, or the first cause to refuse it.
pub fn layout(
    heap: Global,
    switches: usize,
    cables: &[Cable],
    room: u8,
) -> Result<Layout, LayoutError>
    ensures { MatchResult result (λ l. Planned switches cables.now room l) (λ e. Unplanned switches cables.now room e) }
{
    let cabling = Cabling::new(heap, switches, cables)?;
    let root = cabling.root;
    // The root is one of the switches, so it is memory that was refused.
    let tree = Tree::new(heap, cabling, root).map_err(|_| LayoutError::Memory)?;
    lay(heap, &tree, room)
}
