//! Rows of any kind: put behind those of their table, and read in pages.
use crate::cells::Cells;
use crate::changes::{begun, change_rows};
use crate::kinds::StoredRow;
use crate::lines::{Lines, number};
use crate::refusals::{Refusal, Result};
use dv_catalog::TableId;
use dv_records::{Rows, SnapId};
use dv_text::List;
use sqlite::types::ValueRef;
use sqlite::{Alter, Connection, Statement, Transaction};
use std::alloc::Global;

// How many rows one statement inserts. A statement writes each page that it changes once, and has
// costs of its own.
const TOGETHER: usize = 64;

const NEXT: &str =
    "SELECT first_row + row_count FROM directory WHERE generation = 0 AND rows_in = ?1 ORDER BY first_row DESC LIMIT 1";

// Rows behind those of a raw table lengthen its entry. A snapshot's table is put once.
const PUT_ENTRY: &str =
    "INSERT INTO directory (generation, rows_in, snapshot_date, first_row, row_count) VALUES (0, ?1, ?2, ?3, ?4) ON CONFLICT (generation, rows_in, snapshot_date) DO UPDATE SET row_count = row_count + excluded.row_count WHERE snapshot_date = ''";

const ENTRY: &str =
    "SELECT first_row, row_count FROM directory WHERE generation = 0 AND rows_in = ?1 AND snapshot_date = ?2";

/// A raw table, or a table of the snapshot at a date.
#[derive(Clone, Copy)]
pub(crate) enum Table<'a> {
    Raw(TableId),
    Stored(SnapId, &'a [u8]),
}

// The number behind the last row of a table of the file.
fn next_row<S: Alter>(tx: &mut Transaction<'_, S>, name: &str) -> Result<u64> {
    let found = tx.query_all(NEXT, &[ValueRef::Text(name.as_bytes())])?;
    match Cells::first(&found) {
        Some(mut cells) => cells.count(),
        None => Ok(1),
    }
}

// Inserts lines by one statement. The first ones of all make the table, and it is a fault if it is
// there.
fn put_lines<S: Alter>(
    tx: &mut Transaction<'_, S>,
    name: &str,
    lines: &Lines<'_>,
    count: usize,
) -> Result<()> {
    if lines.begin == 1 {
        tx.execute(&lines.create(name)?, &[])?;
    }
    let sql = lines.insert(name, count)?;
    let values = lines.values()?;
    change_rows(tx, &sql, values.items(), count)
}

// Says in the directory whose the rows with the numbers from one to before another are. A fault where
// the table of a snapshot has rows.
fn put_entry<'a, S: Alter>(
    tx: &mut Transaction<'_, S>,
    name: &'a str,
    date: &'a [u8],
    (first, end): (u64, u64),
) -> Result<()> {
    let (first, count) = (number(first)?, number(end.saturating_sub(first))?);
    let entry = [
        ValueRef::Text(name.as_bytes()),
        ValueRef::Text(date),
        ValueRef::Int(first),
        ValueRef::Int(count),
    ];
    change_rows(tx, PUT_ENTRY, &entry, 1)
}

// Puts rows behind those of a hub, link, feed or path, so many by a statement. The date is empty for a
// raw table.
fn put<S: Alter, T: StoredRow>(
    tx: &mut Transaction<'_, S>,
    entity: u32,
    date: &[u8],
    rows: &List<T>,
) -> Result<()> {
    if rows.items().is_empty() {
        return Ok(());
    }
    let name = format!(in rows.allocator(); "rows_of_{}_{entity}", T::NAME)?;
    let first = next_row(tx, &name)?;
    let mut lines = Lines::new(rows.allocator(), first);
    for part in rows.items().chunks(TOGETHER) {
        lines.take(part)?;
        put_lines(tx, &name, &lines, part.len())?;
    }
    put_entry(tx, &name, date, (first, lines.next))
}

/// Puts rows at the end of a raw table, or as those of a table of a snapshot. A fault where they are of
/// another kind than the table.
pub(crate) fn put_rows<S: Alter>(
    tx: &mut Transaction<'_, S>,
    table: Table<'_>,
    rows: &Rows,
) -> Result<()> {
    use Table::{Raw, Stored};
    use TableId::{Effect, Hub, Link, Multi, Sat, Status};
    match (table, rows) {
        (Raw(Hub(at)), Rows::Hubs(rows)) => put(tx, at, b"", rows),
        (Raw(Link(at)), Rows::Links(rows)) => put(tx, at, b"", rows),
        (Raw(Sat(at)), Rows::Sats(rows)) => put(tx, at, b"", rows),
        (Raw(Multi(at)), Rows::Multis(rows)) => put(tx, at, b"", rows),
        (Raw(Status(at)), Rows::Statuses(rows)) => put(tx, at, b"", rows),
        (Raw(Effect(at)), Rows::Effects(rows)) => put(tx, at, b"", rows),
        (Stored(SnapId::Pit(at), date), Rows::Pits(rows)) => put(tx, at, date, rows),
        (Stored(SnapId::Bridge(at), date), Rows::Bridges(rows)) => put(tx, at, date, rows),
        _ => Err(Refusal::Fault),
    }
}

/// Puts rows at the end of a raw table.
pub(crate) fn append<S: Alter>(
    conn: &mut Connection<S>,
    table: TableId,
    rows: &Rows,
) -> Result<()> {
    let mut tx = begun(conn)?;
    put_rows(&mut tx, Table::Raw(table), rows)?;
    Ok(tx.commit()?)
}

// The number of a table's first row, and how many rows it has.
fn entry<'a, S: Alter>(
    conn: &mut Connection<S>,
    name: &'a str,
    date: &'a [u8],
) -> Result<(u64, u64)> {
    let table = [ValueRef::Text(name.as_bytes()), ValueRef::Text(date)];
    let found = conn.query_all(ENTRY, &table)?;
    match Cells::first(&found) {
        Some(mut cells) => Ok((cells.count()?, cells.count()?)),
        None => Ok((1, 0)),
    }
}

// The row that was read, which has to have this number.
fn row_of<T: StoredRow>(cells: &mut Cells<'_>, number: u64) -> Result<T> {
    if cells.count()? != number {
        return Err(Refusal::Fault);
    }
    T::read(cells)
}

// The rows with the numbers from one to before another. A fault where one of them is not there.
fn read<S: Alter, T: StoredRow>(
    alloc: Global,
    conn: &mut Connection<S>,
    select: &Statement,
    (first, end): (u64, u64),
) -> Result<List<T>> {
    let range = [ValueRef::Int(number(first)?), ValueRef::Int(number(end)?)];
    let mut rows = select.query(conn, &range)?;
    let mut found = List::new(alloc);
    for number in first..end {
        let row = rows.next()?.ok_or(Refusal::Fault)?;
        let mut cells = Cells::new(alloc, row, select.column_names());
        found.push(row_of(&mut cells, number)?)?;
    }
    Ok(found)
}

// The rows of a table from a place on, so many at most, and fewer only at the table's end.
fn page<S: Alter, T: StoredRow>(
    alloc: Global,
    conn: &mut Connection<S>,
    (entity, date): (u32, &[u8]),
    (from, most): (u64, u32),
) -> Result<List<T>> {
    let name = format!(in alloc; "rows_of_{}_{entity}", T::NAME)?;
    let (first, count) = entry(conn, &name, date)?;
    let count = count.saturating_sub(from).min(u64::from(most));
    if count == 0 {
        return Ok(List::new(alloc));
    }
    let first = first.saturating_add(from);
    let sql = format!(in alloc;
        "SELECT * FROM {name} WHERE number >= ?1 AND number < ?2 ORDER BY number"
    )?;
    let select = conn.prepare(&sql)?;
    read(alloc, conn, &select, (first, first.saturating_add(count)))
}

/// The rows of a table from a place on, so many at most, and fewer only at the table's end; none where
/// the table of a snapshot is not stored.
pub(crate) fn rows<S: Alter>(
    alloc: Global,
    conn: &mut Connection<S>,
    table: Table<'_>,
    part: (u64, u32),
) -> Result<Rows> {
    use Table::{Raw, Stored};
    use TableId::{Effect, Hub, Link, Multi, Sat, Status};
    Ok(match table {
        Raw(Hub(at)) => Rows::Hubs(page(alloc, conn, (at, b""), part)?),
        Raw(Link(at)) => Rows::Links(page(alloc, conn, (at, b""), part)?),
        Raw(Sat(at)) => Rows::Sats(page(alloc, conn, (at, b""), part)?),
        Raw(Multi(at)) => Rows::Multis(page(alloc, conn, (at, b""), part)?),
        Raw(Status(at)) => Rows::Statuses(page(alloc, conn, (at, b""), part)?),
        Raw(Effect(at)) => Rows::Effects(page(alloc, conn, (at, b""), part)?),
        Stored(SnapId::Pit(at), date) => Rows::Pits(page(alloc, conn, (at, date), part)?),
        Stored(SnapId::Bridge(at), date) => Rows::Bridges(page(alloc, conn, (at, date), part)?),
    })
}
