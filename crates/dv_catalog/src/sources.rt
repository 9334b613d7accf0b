//! The record sources of feeds.

ghost use Rattle.std.specs.Prelude.{◌≡◌, IfOk, Some};
ghost use Rattle.dv_catalog.specs.Feeds.{source_by};

use crate::entries::FeedDef;
use dv_text::{Memory, Text};
use std::alloc::Global;

/// The record source of a feed: its source, a dot and its name.
pub fn record_source(alloc: Global, feed: &FeedDef) -> Result<Text, Memory>
    ensures { IfOk result (λ text. text ≡ source_by (Some feed.now)) }
{
    let (source, name) = (feed.source.bytes(), feed.name.bytes());
    let mut bytes = Vec::with_capacity(
        alloc,
        source.len().saturating_add(name.len()).saturating_add(1),
    )?;
    bytes.extend_from_slice(source)?;
    bytes.push(b'.')?;
    bytes.extend_from_slice(name)?;
    Text::from_vec(bytes)
}
