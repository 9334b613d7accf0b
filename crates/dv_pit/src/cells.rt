ghost use Rattle.std.specs.Prelude.{◌≡◌, ◌++◌, ◌∷◌, [], map, IfOk, OnErr, OnOk};
ghost use Rattle.dv_pit.specs.PitRows.{bare_cell, multi_cell, plain_cell, with_cell};

use dv_records::{PitCell, PitRow};
use dv_sat::{MultiTable, SatTable};
use dv_text::{Digest, Duplicate, List, Memory, Stamp};
use dv_track::StatusTable;
use std::alloc::Global;

// A row with one cell more.
fn extended(row: &PitRow, cell: PitCell) -> Result<PitRow, Memory>
    ensures { IfOk result (λ made. made ≡ record row.now { cells = row.now.cells ++ cell ∷ [] }) }
{
    let mut made = row.copy()?;
    made.cells.push(cell)?;
    Ok(made)
}

// The cell of a key in a satellite.
fn cell_in(sat: &SatTable, status: &StatusTable, key: &Digest, date: Stamp) -> PitCell
    ensures { result ≡ plain_cell sat.now.rows status.now.rows date key.now }
{
    let load = sat.at(key, date).map(|row| row.load);
    PitCell {
        load,
        present: status.present(key, date),
    }
}

// The cell of a key in a multi-active satellite.
fn multi_cell_in(sat: &MultiTable, status: &StatusTable, key: &Digest, date: Stamp) -> PitCell
    ensures { result ≡ multi_cell sat.now.rows status.now.rows date key.now }
{
    let load = sat.at(key, date).first().map(|row| row.load);
    PitCell {
        load,
        present: status.present(key, date),
    }
}

// The cell of a key of a feed without a satellite.
fn bare_cell_in(status: &StatusTable, key: &Digest, date: Stamp) -> PitCell
    ensures { result ≡ bare_cell status.now.rows date key.now }
{
    PitCell {
        load: None,
        present: status.present(key, date),
    }
}

fn with_plain(
    alloc: Global,
    rows: &[PitRow],
    sat: &SatTable,
    status: &StatusTable,
    date: Stamp,
) -> Result<List<PitRow>, Memory>
    ensures { IfOk result (λ made. made ≡ map (with_cell (plain_cell sat.now.rows status.now.rows date)) rows.now) }
{
    let mut made = List::with_room(alloc, rows.len())?;
    for row in rows {
        made.push(extended(row, cell_in(sat, status, &row.key, date))?)?;
    }
    Ok(made)
}

fn with_multi(
    alloc: Global,
    rows: &[PitRow],
    sat: &MultiTable,
    status: &StatusTable,
    date: Stamp,
) -> Result<List<PitRow>, Memory>
    ensures { IfOk result (λ made. made ≡ map (with_cell (multi_cell sat.now.rows status.now.rows date)) rows.now) }
{
    let mut made = List::with_room(alloc, rows.len())?;
    for row in rows {
        made.push(extended(row, multi_cell_in(sat, status, &row.key, date))?)?;
    }
    Ok(made)
}

fn with_bare(
    alloc: Global,
    rows: &[PitRow],
    status: &StatusTable,
    date: Stamp,
) -> Result<List<PitRow>, Memory>
    ensures { IfOk result (λ made. made ≡ map (with_cell (bare_cell status.now.rows date)) rows.now) }
{
    let mut made = List::with_room(alloc, rows.len())?;
    for row in rows {
        made.push(extended(row, bare_cell_in(status, &row.key, date))?)?;
    }
    Ok(made)
}

/// Adds to each row the cell of a feed with a satellite: the load date of the row that is valid for the key at the date,
/// and whether the feed has the key then. For want of memory the rows are as before.
pub fn add_plain(
    alloc: Global,
    rows: &mut List<PitRow>,
    sat: &SatTable,
    status: &StatusTable,
    date: Stamp,
) -> Result<(), Memory>
    ensures ok { OnOk result (rows.new ≡ map (with_cell (plain_cell sat.now.rows status.now.rows date)) rows.old) }
    ensures err { OnErr result (rows.new ≡ rows.old) }
{
    let made = with_plain(alloc, rows.items(), sat, status, date)?;
    *rows = made;
    Ok(())
}

/// Adds to each row the cell of a feed with a multi-active satellite: the load date of the rows that are valid for the
/// key at the date, and whether the feed has the key then. For want of memory the rows are as before.
pub fn add_multi(
    alloc: Global,
    rows: &mut List<PitRow>,
    sat: &MultiTable,
    status: &StatusTable,
    date: Stamp,
) -> Result<(), Memory>
    ensures ok { OnOk result (rows.new ≡ map (with_cell (multi_cell sat.now.rows status.now.rows date)) rows.old) }
    ensures err { OnErr result (rows.new ≡ rows.old) }
{
    let made = with_multi(alloc, rows.items(), sat, status, date)?;
    *rows = made;
    Ok(())
}

/// Adds to each row the cell of a feed without attributes: no load date, and whether the feed has the key at the date.
/// For want of memory the rows are as before.
pub fn add_bare(
    alloc: Global,
    rows: &mut List<PitRow>,
    status: &StatusTable,
    date: Stamp,
) -> Result<(), Memory>
    ensures ok { OnOk result (rows.new ≡ map (with_cell (bare_cell status.now.rows date)) rows.old) }
    ensures err { OnErr result (rows.new ≡ rows.old) }
{
    let made = with_bare(alloc, rows.items(), status, date)?;
    *rows = made;
    Ok(())
}
