// The head of a snapshot: how many rows its tables have, and what these weigh.
ghost use Rattle.std.specs.Prelude.{◌≡◌, IfOk, sum_by};
ghost use Rattle.dv_records.specs.Snapshots.{snap_head};
ghost use Rattle.dv_records.specs.Stores as stores;
ghost use Rattle.dv_records.specs.Weights.{rows_weight};

use dv_records::{SnapHead, SnapTable, weight};
use dv_text::{Memory, Stamp};

// How many rows tables have together. More than a number of 64 bits has room for find no room in
// memory.
fn count_all(tables: &[SnapTable]) -> Result<u64, Memory>
    ensures { IfOk result (λ count. count ≡ sum_by (λ table. stores.row_count table.rows) tables.now) }
{
    let mut rows: u64 = 0;
    for table in tables {
        rows = rows.checked_add(table.rows.count()).ok_or(Memory)?;
    }
    Ok(rows)
}

// What tables weigh together. What a number of 64 bits has no room for finds no room in memory.
fn weight_of(tables: &[SnapTable]) -> Result<u64, Memory>
    ensures { IfOk result (λ weight. weight ≡ sum_by (λ table. rows_weight table.rows) tables.now) }
{
    let mut sum: u64 = 0;
    for table in tables {
        let more = u64::try_from(weight(&table.rows)).map_err(|_| Memory)?;
        sum = sum.checked_add(more).ok_or(Memory)?;
    }
    Ok(sum)
}

/// The head of tables at a date. Takes no memory; the error is that a number of 64 bits has no room
/// for how many rows they have, or for what these weigh.
pub(crate) fn snapshot_head(date: Stamp, tables: &[SnapTable]) -> Result<SnapHead, Memory>
    ensures { IfOk result (λ head. head ≡ snap_head date tables.now) }
{
    let rows = count_all(tables)?;
    let weight = weight_of(tables)?;
    Ok(SnapHead { date, rows, weight })
}
