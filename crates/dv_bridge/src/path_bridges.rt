//! Bridge tables over the raw tables of a vault, and the ways along the feeds of a path.

ghost use Rattle.std.specs.Prelude.{◌≡◌, ◌+◌, ◌<◌, ◌≤◌, ◌==◌, ℕ, Contains, false, IfOk, IsErrOf, IsTrue, List as list_of, OnOk, length, map, position, slice_get, true};
ghost use Rattle.std.specs.List.{list_all};
ghost use Rattle.dv_text.specs.declared.rows.Window.{Window};
ghost use Rattle.dv_text.specs.Keys.{Hashes};
ghost use Rattle.dv_catalog.specs.Limits.{most_references};
ghost use Rattle.dv_catalog.specs.Mappings.{is_link_feed};
ghost use Rattle.dv_records.specs.ReadBack.{status_rows_in};
ghost use Rattle.dv_records.specs.Snapshots as snapshots;
ghost use Rattle.dv_vault.specs.Vaults.{HasSealed};
ghost use Rattle.dv_bridge.specs.BridgeRows.{links_at};
ghost use Rattle.dv_bridge.specs.BridgeTables as bridge;
ghost use Rattle.dv_bridge.specs.KeyedRows.{bare};
ghost use Rattle.dv_bridge.specs.Paths.{is_path_too_large};
ghost use Rattle.dv_bridge.specs.ZeroKeys.{HasZeroKeys};
ghost use Rattle.dv_bridge.specs.FirstWays.{AreFirstWays, HasTooManyWays};

use crate::fault::BridgeFault;
use crate::lent_links::{PathLink, path_links};
use crate::ways::Ways;
use dv_catalog::{Catalog, Parent, PathDef};
use dv_hub_link::LinkTable;
use dv_print::feed_hubs;
use dv_records::BridgeRow;
use dv_text::{List, Memory, Stamp};
use dv_vault::Vault;
use std::alloc::Global;

// The table of the link that a feed delivers.
fn links_of(vault: &Vault, feed: u32) -> &LinkTable
    requires { IsTrue (is_link_feed (slice_get vault.now.mapping.feeds feed)) }
    ensures { (date : ℕ) → bridge.feed_links vault.now.mapping vault.now.tables date feed ≡ links_at result.now.rows (status_rows_in feed vault.now.tables) date }
{
    match vault.catalog().feed(feed).parent {
        Parent::Link(link) => vault.link(link),
        Parent::Hub(_) => unreachable!(),
    }
}

/// The rows of its link that a feed has at a date and that miss no reference, without keys.
pub fn feed_links<'a>(
    alloc: Global,
    vault: &'a Vault,
    feed: u32,
    date: Stamp,
) -> Result<List<PathLink<'a>>, Memory>
    requires { IsTrue (is_link_feed (slice_get vault.now.mapping.feeds feed)) }
    ensures { IfOk result (λ links. links ≡ map bare (bridge.feed_links vault.now.mapping vault.now.tables date feed)) }
{
    let links = links_of(vault, feed);
    let found = path_links(alloc, links, vault.status(feed), date)?;
    Ok(List::from_vec(found))
}

// The place of the first of some hubs that is this one.
fn position_of(hubs: &[u32], hub: u32) -> Option<usize>
    ensures { result ≡ position (λ h. h == hub) hubs.now }
{
    hubs.iter().position(|h| *h == hub)
}

// The place of a hub among the hubs of a feed's link; behind them all where it is none of them.
fn place_of(catalog: &Catalog, feed: u32, hub: u32) -> u32
    ensures place { result ≡ bridge.place_of catalog.now feed hub }
    ensures few { result ≤ most_references }
{
    catalog.note_valid();
    let hubs = feed_hubs(catalog, feed);
    match position_of(hubs, hub) {
        Some(place) => place as u32,
        None => hubs.len() as u32,
    }
}

// The links of each of some feeds at a date.
fn all_links<'a>(
    alloc: Global,
    vault: &'a Vault,
    feeds: &[u32],
    date: Stamp,
) -> Result<Vec<List<PathLink<'a>>>, Memory>
    requires { IsTrue (list_all (λ feed. is_link_feed (slice_get vault.now.mapping.feeds feed)) feeds.now) }
    ensures { IfOk result (λ all. all.items ≡ map (λ feed. map bare (bridge.feed_links vault.now.mapping vault.now.tables date feed)) feeds.now) }
{
    let mut all = Vec::with_capacity(alloc, feeds.len())?;
    for feed in feeds {
        all.push(feed_links(alloc, vault, *feed, date)?)?;
    }
    Ok(all)
}

// Goes on from the ways along the feeds of a path up to a place.
fn go_on<'b, 'a>(
    catalog: &Catalog,
    path: &PathDef,
    place: usize,
    links: &'b [List<PathLink<'a>>],
    ways: &mut Ways<'b, 'a>,
) -> Result<(), BridgeFault>
    requires path { Contains catalog.now.paths path.now }
    requires links { length links.now ≡ length path.now.feeds }
    requires place { place < length path.now.via }
    ensures ways { OnOk result (AreFirstWays catalog.now links.now path.now (place + 1) ways.old → AreFirstWays catalog.now links.now path.now (place + 2) ways.new) }
    ensures too_large { IsErrOf result BridgeFault.TooLarge → AreFirstWays catalog.now links.now path.now (place + 1) ways.old → HasTooManyWays catalog.now links.now path.now }
{
    catalog.note_valid();
    let feeds = path.feeds.items();
    let (last, next, hub) = (feeds[place], feeds[place + 1], path.via.items()[place]);
    let left = place_of(catalog, last, hub);
    let right = place_of(catalog, next, hub);
    ways.go_on(left, right, links[place + 1].items())
}

/// The ways along all feeds of a path, of which these are the links.
pub fn path_ways<'b, 'a>(
    alloc: Global,
    catalog: &Catalog,
    path: &PathDef,
    links: &'b [List<PathLink<'a>>],
) -> Result<Ways<'b, 'a>, BridgeFault>
    requires path { Contains catalog.now.paths path.now }
    requires links { length links.now ≡ length path.now.feeds }
    ensures ways { IfOk result (λ ways. AreFirstWays catalog.now links.now path.now (length path.now.via + 1) ways) }
    ensures too_large { IsErrOf result BridgeFault.TooLarge → HasTooManyWays catalog.now links.now path.now }
{
    catalog.note_valid();
    let mut ways = Ways::first(alloc, links[0].items())?;
    for place in 0..path.via.items().len() {
        go_on(catalog, path, place, links, &mut ways)?;
    }
    Ok(ways)
}

/// The bridge table of a path at a date: for each row of the path's mart the hash keys of its links, then of all
/// their hubs, in order. Condition: the mapping has the path. `TooLarge` comes exactly where some first steps of the
/// path give more than 1,000,000 rows.
pub fn bridge_rows(
    alloc: Global,
    vault: &Vault,
    path: u32,
    date: Stamp,
) -> Result<List<BridgeRow>, BridgeFault>
    requires { path < length vault.now.mapping.paths }
    ensures bridge { IfOk result (λ rows. (hashes : Hashes) (sealed : list_of Window) → HasZeroKeys hashes → HasSealed hashes sealed vault.now → rows ≡ snapshots.bridge vault.now.mapping hashes sealed path date) }
    ensures fits { IfOk result (λ rows. (hashes : Hashes) (sealed : list_of Window) → HasZeroKeys hashes → HasSealed hashes sealed vault.now → is_path_too_large vault.now.mapping sealed path date ≡ false) }
    ensures too_large { IsErrOf result BridgeFault.TooLarge → (hashes : Hashes) (sealed : list_of Window) → HasZeroKeys hashes → HasSealed hashes sealed vault.now → is_path_too_large vault.now.mapping sealed path date ≡ true }
{
    let catalog = vault.catalog();
    catalog.note_valid();
    let definition = catalog.path(path);
    let links = all_links(alloc, vault, definition.feeds.items(), date)?;
    let ways = path_ways(alloc, catalog, definition, &links)?;
    Ok(ways.bridge_rows()?)
}
