ghost use Rattle.std.specs.Prelude.{◌≡◌, ◌<◌, ◌≤◌, IfOk, IsErrOf, length, map};
ghost use Rattle.dv_bridge.specs.BridgeRows.{first_row, links_at, next_rows};
ghost use Rattle.dv_records.specs.Limits.{most_path_rows};

use crate::fault::BridgeFault;
use crate::joins::{check_room, joined, rows_of};
use crate::keyed_links::by_key;
use crate::lent_links::path_links;
use dv_hub_link::LinkTable;
use dv_records::BridgeRow;
use dv_text::{List, Stamp};
use dv_track::StatusTable;
use std::alloc::Global;

/// A row for each row of a link that a feed has at a date and that misses no reference, by hash key. `TooLarge` comes
/// exactly where there are more than 1,000,000.
pub fn bridge_first(
    alloc: Global,
    links: &LinkTable,
    status: &StatusTable,
    date: Stamp,
) -> Result<List<BridgeRow>, BridgeFault>
    ensures ok { IfOk result (λ rows. rows ≡ map first_row (links_at links.now.rows status.now.rows date)) }
    ensures few { IfOk result (λ rows. length rows ≤ most_path_rows) }
    ensures too_large { IsErrOf result BridgeFault.TooLarge → most_path_rows < length (links_at links.now.rows status.now.rows date) }
{
    let found = path_links(alloc, links, status, date)?;
    check_room(0, found.len())?;
    let rows = rows_of(alloc, &found)?;
    Ok(rows)
}

/// The rows of a bridge, each with each row of a link that a feed has at the date, that misses no reference, and that
/// has at the place `right` of its hubs the hash key that the bridge's row has at the place `left` of its hubs: the
/// rows in their order, and to each the links by hash key. A place past the end holds no hash key. `TooLarge` comes
/// exactly where there are more than 1,000,000 such rows, and before any more are made.
pub fn bridge_step(
    alloc: Global,
    rows: &List<BridgeRow>,
    left: u32,
    right: u32,
    links: &LinkTable,
    status: &StatusTable,
    date: Stamp,
) -> Result<List<BridgeRow>, BridgeFault>
    ensures ok { IfOk result (λ made. made ≡ next_rows left right (links_at links.now.rows status.now.rows date) rows.now) }
    ensures few { IfOk result (λ made. length made ≤ most_path_rows) }
    ensures too_large { IsErrOf result BridgeFault.TooLarge → most_path_rows < length (next_rows left right (links_at links.now.rows status.now.rows date) rows.now) }
{
    let found = path_links(alloc, links, status, date)?;
    let keyed = by_key(alloc, &found, right)?;
    let made = joined(alloc, rows.items(), left, &keyed)?;
    Ok(made)
}
