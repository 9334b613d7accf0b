//! The headers of the texts of path marts.

ghost use Rattle.std.specs.Prelude.{◌≡◌, ◌++◌, flat_map, map, IfOk, OnOk};
ghost use Rattle.std.specs.List.{range_with_len};
ghost use Rattle.dv_print.specs.Texts as spec;

use crate::columns::{dotted, push_parts};
use crate::fields::Fields;
use crate::hub_feeds::feed_hubs;
use crate::names::name_of_feed;
use dv_catalog::{Catalog, HubDef};
use dv_text::Memory;
use std::alloc::Global;

// Puts a column at the end for each part of a hub's keys, behind the name of a feed.
fn push_hub(alloc: Global, header: &mut Fields, feed: &[u8], hub: &HubDef) -> Result<(), Memory>
    ensures { OnOk result (header.new ≡ header.old ++ map (spec.dotted feed.now) (map (spec.numbered hub.now.name) (range_with_len 1 hub.now.parts))) }
{
    let name = dotted(alloc, feed, hub.name.bytes())?;
    push_parts(alloc, header, name.as_slice(), hub.parts)
}

// Puts the columns of the hub at a place at the end; none where there is no such hub.
fn push_hub_at(
    alloc: Global,
    catalog: &Catalog,
    header: &mut Fields,
    feed: &[u8],
    hub: u32,
) -> Result<(), Memory>
    ensures { OnOk result (header.new ≡ header.old ++ spec.hub_columns catalog.now feed.now hub) }
{
    if hub < catalog.hub_count() {
        push_hub(alloc, header, feed, catalog.hub(hub))
    } else {
        Ok(())
    }
}

// Puts the columns of hubs at the end, behind the name of a feed.
fn push_hubs(
    alloc: Global,
    catalog: &Catalog,
    header: &mut Fields,
    feed: &[u8],
    hubs: &[u32],
) -> Result<(), Memory>
    ensures { OnOk result (header.new ≡ header.old ++ flat_map (spec.hub_columns catalog.now feed.now) hubs.now) }
{
    for hub in hubs {
        push_hub_at(alloc, catalog, header, feed, *hub)?;
    }
    Ok(())
}

// Puts the columns of a feed's references at the end.
fn push_feed(alloc: Global, catalog: &Catalog, header: &mut Fields, feed: u32) -> Result<(), Memory>
    ensures { OnOk result (header.new ≡ header.old ++ spec.step_columns catalog.now feed) }
{
    let name = name_of_feed(catalog, feed);
    push_hubs(alloc, catalog, header, name, feed_hubs(catalog, feed))
}

/// The header of the text of a path's mart: feed by feed a column for each part of the keys of its references. It has the
/// names of the feed and of the hub, and the number of the part.
pub fn path_header(alloc: Global, catalog: &Catalog, feeds: &[u32]) -> Result<Fields, Memory>
    ensures { IfOk result (λ header. header ≡ spec.path_header catalog.now feeds.now) }
{
    let mut header = Fields::new(alloc);
    for feed in feeds {
        push_feed(alloc, catalog, &mut header, *feed)?;
    }
    Ok(header)
}
