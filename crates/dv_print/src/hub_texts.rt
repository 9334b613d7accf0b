//! The headers of the texts of hub marts.

ghost use Rattle.std.specs.Prelude.{◌≡◌, ◌<◌, ◌++◌, flat_map, length, map, IfOk, OnOk};
ghost use Rattle.dv_print.specs.HubFeeds.{told};
ghost use Rattle.dv_print.specs.Texts as spec;

use crate::columns::{push_dotted, push_parts};
use crate::fields::Fields;
use crate::hub_feeds::{HubFeed, feeds_of};
use dv_catalog::{Catalog, FeedDef};
use dv_text::Memory;
use std::alloc::Global;

// Puts a column at the end for each attribute of a feed.
fn push_attrs(alloc: Global, header: &mut Fields, feed: &FeedDef) -> Result<(), Memory>
    ensures { OnOk result (header.new ≡ header.old ++ map (spec.dotted feed.now.name) feed.now.attrs) }
{
    for attr in feed.attrs.items() {
        push_dotted(alloc, header, feed.name.bytes(), attr.bytes())?;
    }
    Ok(())
}

// Puts the columns of a feed at the end: its name, and its attributes unless it has a sub.
fn push_feed(alloc: Global, header: &mut Fields, feed: &FeedDef) -> Result<(), Memory>
    ensures { OnOk result (header.new ≡ header.old ++ spec.cell_columns feed.now) }
{
    header.push(feed.name.bytes())?;
    if feed.sub.items().is_empty() {
        push_attrs(alloc, header, feed)?;
    }
    Ok(())
}

// Puts the columns of feeds at the end.
fn push_feeds(alloc: Global, header: &mut Fields, feeds: &[HubFeed<'_>]) -> Result<(), Memory>
    ensures { OnOk result (header.new ≡ header.old ++ flat_map (λ feed. spec.cell_columns feed.1) (map told feeds.now)) }
{
    for feed in feeds {
        push_feed(alloc, header, feed.definition)?;
    }
    Ok(())
}

/// The header of the text of a hub's mart: a column for each part of its keys, and for each feed of the hub its name and
/// its attributes unless it has a sub. Condition: the hub is in the mapping.
pub fn hub_header(alloc: Global, catalog: &Catalog, hub: u32) -> Result<Fields, Memory>
    requires { hub < length catalog.now.hubs }
    ensures { IfOk result (λ header. header ≡ spec.hub_header catalog.now hub) }
{
    let feeds = feeds_of(alloc, catalog, hub)?;
    let mut header = Fields::new(alloc);
    let definition = catalog.hub(hub);
    push_parts(
        alloc,
        &mut header,
        definition.name.bytes(),
        definition.parts,
    )?;
    push_feeds(alloc, &mut header, feeds.as_slice())?;
    Ok(header)
}
