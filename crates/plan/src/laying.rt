ghost use Rattle.std.specs.Prelude.{◌≡◌, ◌<◌, ◌≤◌, MatchResult};
ghost use Rattle.graph.specs.Refusal.{Accepts};
ghost use Rattle.net.specs.Layout.{net_of};
ghost use Rattle.plan.specs.Built.{Drawn, Grown, Late, Lays, Refuses, Severed};
ghost use Rattle.plan.specs.Halls.{graph_for};
ghost use Rattle.table.specs.Promised.{LaidOut};
ghost use Rattle.waits.specs.Working.{Within};
ghost use Rattle.wire.specs.Cables.{Proper};
ghost use Rattle.wire.specs.Listed.{listed};
ghost use Rattle.wire.specs.declared.fault.WireError.TheVariants.{Memory};

use crate::hall::Hall;
use graph::{CableError, Cabling, TreeError};
use net::{Layout, Plan, PlanError};
use std::alloc::Global;
use table::{LayoutError, lay};
use tree::Tree;
use waits::{Bounds, WaitError};
use wire::{CableList, Fault, WireError, read_cables};

// The links and the root of a list of cables, which is refused only where a switch cannot be reached; that is found when
// all cables are read, so it stands at the end of the file.
fn cabling_of(heap: Global, list: &CableList, end: usize) -> Result<Cabling, WireError>
    requires { Proper (listed list.now) }
    ensures { MatchResult result (λ g. Accepts list.now.switches list.now.cables.items g) (λ e. Severed (graph_for (listed list.now)) end e) }
{
    Cabling::new(heap, list.switches as usize, list.cables.as_slice()).map_err(
        |cause| match cause {
            CableError::Lost { switch } => Fault::Apart(switch as u8).at(end).into(),
            CableError::Memory => WireError::Memory,
            // the file was read, so its sizes and cables are right
            CableError::Switches
            | CableError::Cables
            | CableError::NoSwitch { .. }
            | CableError::Loop { .. } => unreachable(),
        },
    )
}

// The tree with the prescribed root.
fn grow(heap: Global, list: &CableList, end: usize) -> Result<Tree, WireError>
    requires { Proper (listed list.now) }
    ensures { MatchResult result (λ t. Grown (listed list.now) t) (λ e. Severed (graph_for (listed list.now)) end e) }
{
    let cabling = cabling_of(heap, list, end)?;
    let root = cabling.root;
    Tree::new(heap, cabling, root).map_err(|cause| match cause {
        TreeError::Memory => WireError::Memory,
        // the root is one of the switches
        TreeError::NoRoot => unreachable(),
    })
}

// The layout of a tree's net.
fn lay_out(heap: Global, tree: &Tree, room: u8) -> Result<Layout, WireError>
    requires { (0 < room) × (room ≤ 32) }
    ensures { MatchResult result (λ l. LaidOut tree.now room l) (λ e. e ≡ Memory) }
{
    lay(heap, tree, room).map_err(|cause| match cause {
        LayoutError::Memory => WireError::Memory,
        // the room was read, and the cables of a tree are right
        LayoutError::Room | LayoutError::Cables(_) => unreachable(),
    })
}

// The plan of a tree's net.
fn draw(heap: Global, tree: &Tree, room: u8) -> Result<Plan, WireError>
    requires { (0 < room) × (room ≤ 32) }
    ensures { MatchResult result (λ p. Drawn tree.now room p) (λ e. e ≡ Memory) }
{
    let layout = lay_out(heap, tree, room)?;
    Plan::new(heap, layout).map_err(|cause| match cause {
        PlanError::Memory => WireError::Memory,
        // the layout of a tree has right sizes, and ranks rise
        PlanError::Sizes | PlanError::Falls { .. } => unreachable(),
    })
}

// The bounds of a plan; one that is too long is found when all is read.
fn bound(heap: Global, plan: Plan, end: usize) -> Result<Bounds, WireError>
    ensures { MatchResult result (λ b. (b.plan ≡ plan) × Within (net_of plan.layout)) (λ e. Late (net_of plan.layout) end e) }
{
    Bounds::new(heap, plan).map_err(|cause| match cause {
        WaitError::TooLong => Fault::TooLong.at(end).into(),
        WaitError::Memory => WireError::Memory,
    })
}

impl Hall {
    // The hall that a file of cables describes, or the file's first fault.
    pub fn lay(heap: Global, bytes: &[u8]) -> Result<Hall, WireError>
        ensures { MatchResult result (λ h. Lays bytes.now h) (λ e. Refuses bytes.now e) }
    {
        let list = read_cables(heap, bytes)?;
        let tree = grow(heap, &list, bytes.len())?;
        let plan = draw(heap, &tree, list.room)?;
        let bounds = bound(heap, plan, bytes.len())?;
        Ok(Hall { list, tree, bounds })
    }

    // The plan alone, for a fabric to run by.
    pub fn into_plan(self) -> Plan
        ensures { result ≡ self.bounds.plan }
    {
        let Hall {
            list: _,
            tree: _,
            bounds,
        } = self;
        bounds.into_plan()
    }
}
