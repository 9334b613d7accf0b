//! Point-in-time tables over the raw tables of a vault.

ghost use Rattle.std.specs.Prelude.{◌≡◌, ◌<◌, All, List as list_of, Some, length, map, slice_get, IfOk, OnOk};
ghost use Rattle.dv_text.specs.declared.rows.Window.{Window};
ghost use Rattle.dv_text.specs.Keys.{Hashes};
ghost use Rattle.dv_print.specs.HubFeeds.{told};
ghost use Rattle.dv_pit.specs.PitCells.{with_cells};
ghost use Rattle.dv_records.specs.Snapshots as snapshots;
ghost use Rattle.dv_vault.specs.Vaults.{HasSealed};
ghost use Rattle.dv_pit.specs.PitRows.{with_cell};
ghost use Rattle.dv_pit.specs.PitTables.{cell_read, pit_read};

use crate::cells::{add_bare, add_multi, add_plain};
use crate::keys::pit_keys;
use dv_print::{HubFeed, feeds_of};
use dv_records::PitRow;
use dv_text::{List, Memory, Stamp};
use dv_vault::Vault;
use std::alloc::Global;

// Adds to each row the cell of a feed.
fn add_cell(
    alloc: Global,
    vault: &Vault,
    rows: &mut List<PitRow>,
    feed: &HubFeed<'_>,
    date: Stamp,
) -> Result<(), Memory>
    requires { slice_get vault.now.mapping.feeds feed.now.place ≡ Some feed.now.definition.now }
    ensures { OnOk result (rows.new ≡ map (with_cell (λ key. cell_read vault.now.tables date key (told feed.now))) rows.old) }
{
    let status = vault.status(feed.place);
    if feed.definition.attrs.items().is_empty() {
        return add_bare(alloc, rows, status, date);
    }
    if feed.definition.sub.items().is_empty() {
        return match vault.sat(feed.place) {
            Some(sat) => add_plain(alloc, rows, sat, status, date),
            None => unreachable!(),
        };
    }
    match vault.multi(feed.place) {
        Some(sat) => add_multi(alloc, rows, sat, status, date),
        None => unreachable!(),
    }
}

// Adds to each row the cells of feeds.
fn add_cells(
    alloc: Global,
    vault: &Vault,
    rows: &mut List<PitRow>,
    feeds: &[HubFeed<'_>],
    date: Stamp,
) -> Result<(), Memory>
    requires { All (λ feed. slice_get vault.now.mapping.feeds feed.place ≡ Some feed.definition.now) feeds.now }
    ensures { OnOk result (rows.new ≡ map (with_cells (λ key. map (cell_read vault.now.tables date key) (map told feeds.now))) rows.old) }
{
    for feed in feeds {
        add_cell(alloc, vault, rows, feed, date)?;
    }
    Ok(())
}

/// The point-in-time table of a hub at a date, by hash key. Condition: the mapping has the hub.
pub fn pit_rows(alloc: Global, vault: &Vault, hub: u32, date: Stamp) -> Result<List<PitRow>, Memory>
    requires { hub < length vault.now.mapping.hubs }
    ensures read { IfOk result (λ rows. rows ≡ pit_read vault.now.mapping vault.now.tables hub date) }
    ensures pit { IfOk result (λ rows. (hashes : Hashes) (sealed : list_of Window) → HasSealed hashes sealed vault.now → rows ≡ snapshots.pit vault.now.mapping hashes sealed hub date) }
{
    let catalog = vault.catalog();
    catalog.note_valid();
    let feeds = feeds_of(alloc, catalog, hub)?;
    let mut rows = pit_keys(alloc, vault.hub(hub), date)?;
    add_cells(alloc, vault, &mut rows, feeds.as_slice(), date)?;
    Ok(rows)
}
