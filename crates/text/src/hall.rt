// The text of a hall that is laid, a fact to a line.
ghost use Rattle.std.specs.Prelude.{◌≡◌, ℕ, ◌<◌, List, IfOk, string_bytes, OnOk, vec_len, slice_index, EachIndex};
ghost use Rattle.text.specs.Laid.{Way, Ways, along_text, doors_text, text_of_hall, head_text, links_text, patience_in, road_text, roads_text, row_text, table_text};
ghost use Rattle.text.specs.Texts.{Adds};

use crate::pieces::{Line, Spaced, write_each};
use plan::Hall;
use report::{DoorLine, EntryWord, HeadLine, LevelLine, LinkLine, RoadHead, RootLine, TableHead};
use std::alloc::{AllocError, Global};
use std::fmt::Write;

// All lines of a hall; a road's line has the links that the table walks from its door for its place.
pub fn hall_text(heap: Global, hall: &Hall) -> Result<String, AllocError>
    ensures { IfOk result (λ s. (way : ℕ → ℕ → List ℕ) → Ways hall.now way → string_bytes s ≡ text_of_hall hall.now way) }
{
    let mut text = String::new(heap);
    head(&mut text, hall)?;
    links(&mut text, hall)?;
    doors(&mut text, hall)?;
    table(&mut text, hall)?;
    // Roads are written in pieces, so they are no one thing that `write_each` could show
    for from in 0..hall.bounds.plan.layout.doors {
        roads(&mut text, heap, hall, from)?;
    }
    Ok(text)
}

// The size of a hall, its root, and the level of each switch.
fn head(text: &mut String, hall: &Hall) -> Result<(), AllocError>
    ensures { OnOk result (Adds text.old text.new (head_text hall.now)) }
{
    let head = HeadLine {
        switches: hall.list.switches,
        cables: hall.list.cables.len(),
        room: hall.list.room,
    };
    writeln!(text, "{head}")?;
    writeln!(text, "{}", RootLine(hall.tree.root))?;
    let levels = hall.tree.levels.iter().enumerate();
    write_each(
        text,
        levels.map(|(switch, level)| Line(LevelLine {
            switch,
            level: *level,
        })),
    )
}

// The patience of a channel.
fn patience(hall: &Hall, channel: usize) -> u64
    ensures { result ≡ patience_in hall.now channel }
{
    // None is told as 0: no fact of a hall says that the links of its tree are channels of its plan
    hall.bounds.patience(channel).unwrap_or(0)
}

// All links.
fn links(text: &mut String, hall: &Hall) -> Result<(), AllocError>
    ensures { OnOk result (Adds text.old text.new (links_text hall.now)) }
{
    let tree = &hall.tree;
    let links = tree.cabling.links.iter().zip(tree.ways.iter()).enumerate();
    write_each(
        text,
        links.map(|(channel, (link, way))| {
            Line(LinkLine {
                channel,
                from: link.from,
                to: link.to,
                up: way.up,
                rank: way.rank,
                patience: patience(hall, channel),
            })
        }),
    )
}

// All doors.
fn doors(text: &mut String, hall: &Hall) -> Result<(), AllocError>
    ensures { OnOk result (Adds text.old text.new (doors_text hall.now)) }
{
    let layout = &hall.bounds.plan.layout;
    let switches = 0..layout.doors;
    write_each(
        text,
        switches.map(|switch| {
            let channel = layout.links + switch;
            Line(DoorLine {
                channel,
                switch,
                patience: patience(hall, channel),
            })
        }),
    )
}

// The row of a channel.
fn row(text: &mut String, hall: &Hall, channel: usize) -> Result<(), AllocError>
    ensures { OnOk result (Adds text.old text.new (row_text hall.now channel)) }
{
    let plan = &hall.bounds.plan;
    write!(text, "{}", TableHead(channel))?;
    let places = 0..plan.layout.places;
    write_each(
        text,
        places.map(|place| EntryWord(plan.entry(channel, place))),
    )?;
    text.push('\n')?;
    Ok(())
}

// All rows.
fn table(text: &mut String, hall: &Hall) -> Result<(), AllocError>
    ensures { OnOk result (Adds text.old text.new (table_text hall.now)) }
{
    let layout = &hall.bounds.plan.layout;
    // A row is written in pieces, so it is no one thing that `write_each` could show
    for channel in 0..layout.links + layout.doors {
        row(text, hall, channel)?;
    }
    Ok(())
}

// The rest of a road's line: the switches at which its links end, and the links.
fn along(text: &mut String, hall: &Hall, road: &[u16]) -> Result<(), AllocError>
    requires { EachIndex road.now (λ k. slice_index road.now k < vec_len hall.now.bounds.plan.layout.ends) }
    ensures { OnOk result (Adds text.old text.new (along_text hall.now road.now)) }
{
    let ends = hall.bounds.plan.layout.ends.as_slice();
    write_each(text, road.iter().map(|link| Spaced(ends[*link as usize])))?;
    write!(text, " links")?;
    if road.is_empty() {
        write!(text, " none")?;
    }
    write_each(text, road.iter().map(|link| Spaced(*link)))?;
    text.push('\n')?;
    Ok(())
}

// The road from a door to a place.
fn road(
    text: &mut String,
    heap: Global,
    hall: &Hall,
    from: usize,
    place: usize,
) -> Result<(), AllocError>
    requires door { from < hall.now.bounds.plan.layout.doors }
    requires place { place < hall.now.bounds.plan.layout.places }
    ensures { OnOk result ((es : List ℕ) → Way hall.now from place es → Adds text.old text.new (road_text hall.now from place es)) }
{
    let links = hall.road(heap, from, place)?.unwrap();
    let wait = hall.wait(from, place).unwrap();
    write!(text, "{}", RoadHead { from, place, wait })?;
    along(text, hall, links.as_slice())?;
    Ok(())
}

// The roads from one door to all places.
fn roads(text: &mut String, heap: Global, hall: &Hall, from: usize) -> Result<(), AllocError>
    requires { from < hall.now.bounds.plan.layout.doors }
    ensures { OnOk result ((way : ℕ → ℕ → List ℕ) → Ways hall.now way → Adds text.old text.new (roads_text hall.now way from)) }
{
    // A road is written in pieces, so it is no one thing that `write_each` could show
    for place in 0..hall.bounds.plan.layout.places {
        road(text, heap, hall, from, place)?;
    }
    Ok(())
}
