// Plays rounds and prints what comes: for now a built-in star of four switches with a hand-written table.
#![tactic(auto)]

mod star;

use anyhow::anyhow;
use net::{Block, Plan};
use report::CameLine;
use round::Running;
use star::star;

// Every leaf sends one block to every other switch, and the hub one to itself: a door, and a place.
const BLOCKS: [(u8, u8); 10] = [
    (1, 2),
    (1, 3),
    (1, 0),
    (2, 1),
    (2, 3),
    (2, 0),
    (3, 1),
    (3, 2),
    (3, 0),
    (0, 0),
];

const ROUNDS: usize = 12;

fn main(rt: HostRuntime) -> anyhow::Result<()> {
    play(&rt)
}

fn play(rt: &HostRuntime) -> anyhow::Result<()> {
    let heap = rt.alloc();
    let plan = Plan::new(heap, star(heap)?).map_err(|_| anyhow!("the star's table is refused"))?;
    let mut running = Running::start(heap, plan).map_err(|_| anyhow!("no memory for the star"))?;
    for (name, &(door, place)) in (0u32..).zip(&BLOCKS) {
        running
            .let_in(Block { door, place, name })
            .map_err(|_| anyhow!("a block is refused"))?;
    }
    let mut shown = 0;
    for _ in 0..ROUNDS {
        running.round().map_err(|_| anyhow!("a round is refused"))?;
        let came = running.came();
        for k in came.iter().skip(shown) {
            println!(rt; "{}", CameLine(*k))?;
        }
        shown = came.len();
    }
    Ok(())
}
