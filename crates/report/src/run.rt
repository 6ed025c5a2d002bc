// The lines of the program that plays rounds.
ghost use Rattle.report.specs.Lines.{block_word, came_line, show_line, store_head, waiting_line};
ghost use Rattle.std.specs.Prelude.{Some};

use net::{Block, Came};
use std::fmt;

// A block that was handed over.
#[derive(Clone, Copy)]
pub struct CameLine(pub Came);

impl fmt::Display for CameLine {
    ghost output = { λ x. Some (came_line x.0) };

    fn fmt<W: fmt::Write>(&self, f: &mut fmt::Formatter<W>) -> fmt::Result {
        let round = self.0.round;
        let Block { door, place, name } = self.0.block;
        write!(f, "came {round} place {place} door {door} name {name}")
    }
}

// How many rounds were played.
#[derive(Clone, Copy)]
pub struct ShowLine(pub u64);

impl fmt::Display for ShowLine {
    ghost output = { λ x. Some (show_line x.0) };

    fn fmt<W: fmt::Write>(&self, f: &mut fmt::Formatter<W>) -> fmt::Result {
        let rounds = self.0;
        write!(f, "show {rounds}")
    }
}

// How many blocks wait at a door.
#[derive(Clone, Copy)]
pub struct WaitingLine {
    pub door: usize,
    pub count: usize,
}

impl fmt::Display for WaitingLine {
    ghost output = { λ x. Some (waiting_line x.door x.count) };

    fn fmt<W: fmt::Write>(&self, f: &mut fmt::Formatter<W>) -> fmt::Result {
        let WaitingLine { door, count } = *self;
        write!(f, "door {door} waiting {count}")
    }
}

// A block that stands in a store.
#[derive(Clone, Copy)]
pub struct BlockWord(pub Block);

impl fmt::Display for BlockWord {
    ghost output = { λ x. Some (block_word x.0) };

    fn fmt<W: fmt::Write>(&self, f: &mut fmt::Formatter<W>) -> fmt::Result {
        let Block { door, place, name } = self.0;
        write!(f, " {door}:{name}:{place}")
    }
}

// A link as it stands, before the blocks of its store.
#[derive(Clone, Copy)]
pub struct StoreHead {
    pub link: usize,
    pub free: u8,
    pub turn: u16,
}

impl fmt::Display for StoreHead {
    ghost output = { λ x. Some (store_head x.link x.free x.turn) };

    fn fmt<W: fmt::Write>(&self, f: &mut fmt::Formatter<W>) -> fmt::Result {
        let StoreHead { link, free, turn } = *self;
        write!(f, "store {link} free {free} turn {turn} blocks")
    }
}
