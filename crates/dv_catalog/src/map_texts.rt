//! The printed form of a fault of the mapping.

ghost use Rattle.std.specs.Prelude.{◌≡◌, ◌++◌, IfOk};
ghost use Rattle.dv_catalog.specs.Printed.{printed_field};
ghost use Rattle.dv_catalog.specs.MapTexts.{map_error_text};

use crate::map_error::MapError;
use crate::printing::add_field;
use dv_text::{Memory, Text};
use std::alloc::Global;

fn with_field(alloc: Global, head: &[u8], name: &[u8], value: &Text) -> Result<Text, Memory>
    ensures { IfOk result (λ line. line ≡ head.now ++ printed_field name.now value.now) }
{
    let mut line = Vec::from_slice(alloc, head)?;
    add_field(&mut line, name, value)?;
    Text::from_vec(line)
}

fn column_twice(alloc: Global, feed: &Text, column: &Text) -> Result<Text, Memory>
    ensures { IfOk result (λ line. line ≡ map_error_text (MapError.ColumnTwice feed.now column.now)) }
{
    let mut line = Vec::from_slice(alloc, b"8 ColumnTwice")?;
    add_field(&mut line, b"feed", feed)?;
    add_field(&mut line, b"name", column)?;
    Text::from_vec(line)
}

impl MapError {
    /// The fault's line: its number, its name and its fields. Want of memory has no line: its text is empty.
    pub fn printed(&self, alloc: Global) -> Result<Text, Memory>
        ensures { IfOk result (λ line. line ≡ map_error_text self.now) }
    {
        match self {
            MapError::Text => Text::of(alloc, b"1 Text"),
            MapError::Shape { place } => with_field(alloc, b"2 Shape", b"place", place),
            MapError::NameTwice { name } => with_field(alloc, b"3 NameTwice", b"name", name),
            MapError::UnknownHub { name } => with_field(alloc, b"4 UnknownHub", b"name", name),
            MapError::UnknownLink { name } => with_field(alloc, b"5 UnknownLink", b"name", name),
            MapError::KeyCount { feed } => with_field(alloc, b"6 KeyCount", b"feed", feed),
            MapError::NoKey { name } => with_field(alloc, b"7 NoKey", b"name", name),
            MapError::ColumnTwice { feed, name } => column_twice(alloc, feed, name),
            MapError::SubWithoutAttrs { feed } => with_field(
                alloc,
                b"9 SubWithoutAttrs",
                b"feed",
                feed,
            ),
            MapError::DriverNotInLink { feed } => with_field(
                alloc,
                b"10 DriverNotInLink",
                b"feed",
                feed,
            ),
            MapError::DriverWithSub { feed } => with_field(
                alloc,
                b"11 DriverWithSub",
                b"feed",
                feed,
            ),
            MapError::PathBroken { path } => with_field(alloc, b"12 PathBroken", b"path", path),
            MapError::TooMany { kind } => with_field(alloc, b"13 TooMany", b"kind", kind),
            MapError::NameForm { name } => with_field(alloc, b"14 NameForm", b"name", name),
            MapError::Memory => Ok(Text::empty()),
        }
    }
}
