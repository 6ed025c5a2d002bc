// The lines of the program that lays a hall.
ghost use Rattle.report.specs.Lines.{door_line, entry_word, head_line, level_line, link_line, road_head, root_line, table_head, way_word};
ghost use Rattle.std.specs.Prelude.{Some};

use net::Entry;
use std::fmt;

// The size of a hall: its switches and cables, and how many blocks a store holds.
#[derive(Clone, Copy)]
pub struct HeadLine {
    pub switches: u8,
    pub cables: usize,
    pub room: u8,
}

impl fmt::Display for HeadLine {
    ghost output = { λ x. Some (head_line x.switches x.cables x.room) };

    fn fmt<W: fmt::Write>(&self, f: &mut fmt::Formatter<W>) -> fmt::Result {
        let HeadLine {
            switches,
            cables,
            room,
        } = *self;
        write!(f, "switches {switches} cables {cables} store {room}")
    }
}

// The root of the tree.
#[derive(Clone, Copy)]
pub struct RootLine(pub usize);

impl fmt::Display for RootLine {
    ghost output = { λ x. Some (root_line x.0) };

    fn fmt<W: fmt::Write>(&self, f: &mut fmt::Formatter<W>) -> fmt::Result {
        let root = self.0;
        write!(f, "root {root}")
    }
}

// The level of a switch.
#[derive(Clone, Copy)]
pub struct LevelLine {
    pub switch: usize,
    pub level: u8,
}

impl fmt::Display for LevelLine {
    ghost output = { λ x. Some (level_line x.switch x.level) };

    fn fmt<W: fmt::Write>(&self, f: &mut fmt::Formatter<W>) -> fmt::Result {
        let LevelLine { switch, level } = *self;
        write!(f, "level {switch} {level}")
    }
}

// Whether a link goes up.
#[derive(Clone, Copy)]
struct WayWord(bool);

impl fmt::Display for WayWord {
    ghost output = { λ x. Some (way_word x.0) };

    fn fmt<W: fmt::Write>(&self, f: &mut fmt::Formatter<W>) -> fmt::Result {
        if self.0 {
            write!(f, "up")
        } else {
            write!(f, "down")
        }
    }
}

// A link: the switches that it leads from and to, whether it goes up, its rank, and the most rounds that a block stands
// first in it.
#[derive(Clone, Copy)]
pub struct LinkLine {
    pub channel: usize,
    pub from: u8,
    pub to: u8,
    pub up: bool,
    pub rank: u32,
    pub patience: u64,
}

impl fmt::Display for LinkLine {
    ghost output = { λ x. Some (link_line x.channel x.from x.to x.up x.rank x.patience) };

    fn fmt<W: fmt::Write>(&self, f: &mut fmt::Formatter<W>) -> fmt::Result {
        let LinkLine {
            channel,
            from,
            to,
            up,
            rank,
            patience,
        } = *self;
        let way = WayWord(up);
        write!(
            f,
            "link {channel} {from} {to} {way} rank {rank} patience {patience}"
        )
    }
}

// A door: its switch, and the most rounds that a block stands first at it.
#[derive(Clone, Copy)]
pub struct DoorLine {
    pub channel: usize,
    pub switch: usize,
    pub patience: u64,
}

impl fmt::Display for DoorLine {
    ghost output = { λ x. Some (door_line x.channel x.switch x.patience) };

    fn fmt<W: fmt::Write>(&self, f: &mut fmt::Formatter<W>) -> fmt::Result {
        let DoorLine {
            channel,
            switch,
            patience,
        } = *self;
        write!(f, "door {channel} {switch} patience {patience}")
    }
}

// An entry of a table.
#[derive(Clone, Copy)]
pub struct EntryWord(pub Entry);

impl fmt::Display for EntryWord {
    ghost output = { λ x. Some (entry_word x.0) };

    fn fmt<W: fmt::Write>(&self, f: &mut fmt::Formatter<W>) -> fmt::Result {
        match self.0 {
            Entry::Here => write!(f, " here"),
            Entry::Link(e) => write!(f, " {e}"),
        }
    }
}

// A row of the table, before its entries.
#[derive(Clone, Copy)]
pub struct TableHead(pub usize);

impl fmt::Display for TableHead {
    ghost output = { λ x. Some (table_head x.0) };

    fn fmt<W: fmt::Write>(&self, f: &mut fmt::Formatter<W>) -> fmt::Result {
        let channel = self.0;
        write!(f, "table {channel}")
    }
}

// A road, before the switches at which its links end: the door's own switch, the place, and the wait.
#[derive(Clone, Copy)]
pub struct RoadHead {
    pub from: usize,
    pub place: usize,
    pub wait: u64,
}

impl fmt::Display for RoadHead {
    ghost output = { λ x. Some (road_head x.from x.place x.wait) };

    fn fmt<W: fmt::Write>(&self, f: &mut fmt::Formatter<W>) -> fmt::Result {
        let RoadHead { from, place, wait } = *self;
        write!(f, "road {from} {place} wait {wait} switches {from}")
    }
}
