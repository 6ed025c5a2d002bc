// Texts one after another: of each thing that an iterator gives, what the thing shows.
ghost use Rattle.std.specs.Fmt.{option_append};
ghost use Rattle.std.specs.Iterator.{IsFinite};
ghost use Rattle.std.specs.Prelude.{codes, string_bytes, Some, OnOk};
ghost use Rattle.text.specs.Texts.{Writes};

use std::alloc::AllocError;
use std::fmt;
use std::fmt::{Display, Write};

// A thing on a line of its own.
#[derive(Drop)]
pub(crate) struct Line<T>(pub(crate) T);

impl<T: Display> Display for Line<T> {
    ghost output = { λ x. option_append (T.output x.0) (Some (codes "\n")) };

    fn fmt<W: fmt::Write>(&self, f: &mut fmt::Formatter<W>) -> fmt::Result {
        let Line(thing) = self;
        writeln!(f, "{thing}")
    }
}

// A thing after a space.
#[derive(Drop)]
pub(crate) struct Spaced<T>(pub(crate) T);

impl<T: Display> Display for Spaced<T> {
    ghost output = { λ x. option_append (Some (codes " ")) (T.output x.0) };

    fn fmt<W: fmt::Write>(&self, f: &mut fmt::Formatter<W>) -> fmt::Result {
        let Spaced(thing) = self;
        write!(f, " {thing}")
    }
}

// Writes each of some things.
pub(crate) fn write_each<I: Iterator + Drop>(text: &mut String, things: I) -> Result<(), AllocError>
where
    I::Item: Display + Drop,
    requires can { I.can_next things }
    requires ends { IsFinite (I.remaining things) }
    ensures { OnOk result (Writes I.Item.output I.next_gives things (string_bytes text.old) (string_bytes text.new)) }
{
    for thing in things {
        write!(text, "{thing}")?;
    }
    Ok(())
}
