ghost use Rattle.std.specs.Prelude.{◌≡◌, filter, map, nat_le, IfOk};
ghost use Rattle.dv_pit.specs.PitRows.{bare_row, known_keys};

use dv_hub_link::HubTable;
use dv_records::{HubRow, PitRow};
use dv_text::{Digest, List, Memory, Stamp, sorted_list};
use std::alloc::Global;

// The hash keys of rows that are not later than a date.
fn keys_of(alloc: Global, rows: &[HubRow], date: Stamp) -> Result<List<Digest>, Memory>
    ensures { IfOk result (λ keys. keys ≡ map (λ row. row.digest) (filter (λ row. nat_le row.load date) rows.now)) }
{
    let mut keys = List::new(alloc);
    for row in rows {
        if row.load <= date {
            keys.push(row.digest)?;
        }
    }
    Ok(keys)
}

fn bare_row(alloc: Global, key: Digest) -> PitRow
    ensures { result ≡ bare_row key }
{
    PitRow {
        key,
        cells: List::new(alloc),
    }
}

fn bare_rows(alloc: Global, keys: &[Digest]) -> Result<List<PitRow>, Memory>
    ensures { IfOk result (λ rows. rows ≡ map bare_row keys.now) }
{
    let mut rows = List::with_room(alloc, keys.len())?;
    for key in keys {
        rows.push(bare_row(alloc, *key))?;
    }
    Ok(rows)
}

/// A row for each key that a hub has at a date, by hash key, without cells.
pub fn pit_keys(alloc: Global, hub: &HubTable, date: Stamp) -> Result<List<PitRow>, Memory>
    ensures { IfOk result (λ rows. rows ≡ map bare_row (known_keys hub.now.rows date)) }
{
    let keys = sorted_list(keys_of(alloc, hub.rows(), date)?);
    bare_rows(alloc, keys.items())
}
