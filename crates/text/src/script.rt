// The text of a script that is played.
ghost use Rattle.round.specs.Running.{net_in, state_in};
ghost use Rattle.std.specs.Prelude.{◌≡◌, [], length, drop, string_bytes, OnOk};
ghost use Rattle.store.specs.Store.{items};
ghost use Rattle.text.specs.Plays.{added_text, came_text, show_text, store_one, store_text, told_then, waiting_one};
ghost use Rattle.text.specs.Texts.{Adds, below};

use crate::pieces::{Line, write_each};
use report::{BlockWord, CameLine, ShowLine, StoreHead, WaitingLine};
use round::{LinkView, Running};
use std::alloc::{AllocError, Global};
use std::fmt::Write;
use wire::Thing;

// A link as it stands, the oldest block of its store first.
fn store(text: &mut String, e: usize, link: LinkView<'_>) -> Result<(), AllocError>
    ensures { OnOk result (Adds text.old text.new (store_text e link.entry.free link.entry.turn (items link.entry.store.now))) }
{
    let head = StoreHead {
        link: e,
        free: link.free,
        turn: link.turn,
    };
    write!(text, "{head}")?;
    let blocks = (0..link.store.len()).filter_map(|i| link.store.get(i));
    write_each(text, blocks.map(BlockWord))?;
    if link.store.len() == 0 {
        write!(text, " none")?;
    }
    text.push('\n')?;
    Ok(())
}

// All stores.
fn stores(text: &mut String, running: &Running) -> Result<(), AllocError>
    ensures { OnOk result (Adds text.old text.new (below (store_one running.now) (net_in running.now).links)) }
{
    // A link's line is written in pieces, so it is no one thing that `write_each` could show
    for e in 0..running.plan().layout.links {
        store(text, e, running.link(e).unwrap())?;
    }
    Ok(())
}

// How many blocks wait at each door.
fn waiting(text: &mut String, running: &Running) -> Result<(), AllocError>
    ensures { OnOk result (Adds text.old text.new (below (waiting_one running.now) (net_in running.now).doors)) }
{
    let doors = 0..running.plan().layout.doors;
    write_each(
        text,
        doors.map(|door| {
            Line(WaitingLine {
                door,
                count: running.waiting_at(door).unwrap(),
            })
        }),
    )
}

// All stores, and how many blocks wait at each door.
fn show(text: &mut String, running: &Running) -> Result<(), AllocError>
    ensures { OnOk result (Adds text.old text.new (show_text running.now)) }
{
    writeln!(text, "{}", ShowLine(running.rounds()))?;
    stores(text, running)?;
    waiting(text, running)?;
    Ok(())
}

// Text that was not taken yet, and how much of what came has been told.
#[derive(Drop)]
pub struct Account {
    pub text: String,
    told: usize,
}

impl Account {
    // An account of a script of which nothing was played.
    pub fn new(heap: Global) -> Account
        ensures { (string_bytes result.text ≡ []) × (result.told ≡ 0) }
    {
        Account {
            text: String::new(heap),
            told: 0,
        }
    }

    // Adds what a thing that was played brought.
    pub fn add(&mut self, running: &Running, thing: Thing) -> Result<(), AllocError>
        ensures text { OnOk result (Adds self.old.text self.new.text (added_text running.now self.old.told thing)) }
        ensures told { OnOk result (self.new.told ≡ told_then running.now self.old.told thing) }
    {
        match thing {
            Thing::Round => self.came(running),
            Thing::Show => show(&mut self.text, running),
            Thing::Block(_) | Thing::Word(_) => Ok(()),
        }
    }

    // A line for each block that came since the last round.
    fn came(&mut self, running: &Running) -> Result<(), AllocError>
        ensures { OnOk result (Adds self.old.text self.new.text (came_text (drop self.old.told (state_in running.now).came)) × (self.new.told ≡ length (state_in running.now).came)) }
    {
        let came = running.came();
        write_each(
            &mut self.text,
            came.iter()
                .skip(self.told)
                .map(|came| Line(CameLine(*came))),
        )?;
        self.told = came.len();
        Ok(())
    }
}
