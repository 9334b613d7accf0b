//! The mapping file, the open window, and the heads of the sealed windows and of the snapshots.
use crate::cells::Cells;
use crate::changes::{begun, change_both, change_rows};
use crate::encodings::{bytes_of, extracts_of};
use crate::lines::number;
use crate::refusals::{Refusal, Result};
use crate::rows::{Table, put_rows};
use dv_records::{SnapHead, SnapTable};
use dv_text::{List, Text, Window, WindowHead};
use sqlite::types::ValueRef;
use sqlite::{Alter, Connection};
use std::alloc::Global;

const DROP_STAGE: &str = "DELETE FROM stage WHERE load_date = ?1";

const PUT_WINDOW: &str = "INSERT INTO windows (load_date, feeds) VALUES (?1, ?2)";

const PUT_SNAPSHOT: &str =
    "INSERT INTO snapshots (generation, snapshot_date, row_count, weight) VALUES (0, ?1, ?2, ?3)";

// Dates ascend as their texts do.
const SNAPSHOTS: &str =
    "SELECT snapshot_date, row_count, weight FROM snapshots WHERE generation = 0 ORDER BY snapshot_date";

/// The mapping file's bytes, if there are any.
pub(crate) fn mapping<S: Alter>(conn: &mut Connection<S>) -> Result<Option<Text>> {
    let rows = conn.query_all("SELECT content FROM mapping", &[])?;
    match Cells::first(&rows) {
        Some(mut cells) => Ok(Some(Text::of(cells.alloc, cells.blob()?)?)),
        None => Ok(None),
    }
}

/// Stores the mapping file's bytes. A fault where some are stored.
pub(crate) fn put_mapping<S: Alter>(conn: &mut Connection<S>, text: &Text) -> Result<()> {
    let values = [ValueRef::Blob(text.bytes())];
    conn.execute(
        "INSERT INTO mapping (number, content) VALUES (1, ?1)",
        &values,
    )?;
    Ok(())
}

/// The open window, if there is one.
pub(crate) fn stage<S: Alter>(conn: &mut Connection<S>) -> Result<Option<Window>> {
    let rows = conn.query_all("SELECT load_date, extracts FROM stage", &[])?;
    let Some(mut cells) = Cells::first(&rows) else {
        return Ok(None);
    };
    let load = cells.date()?;
    let extracts = extracts_of(cells.alloc, cells.blob()?)?;
    Ok(Some(Window { load, extracts }))
}

/// Opens a window. A fault where one is open.
pub(crate) fn put_stage<S: Alter>(conn: &mut Connection<S>, window: &Window) -> Result<()> {
    let load = window.load.print();
    let extracts = bytes_of(&window.extracts)?;
    let values = [ValueRef::Text(&load), ValueRef::Blob(&extracts)];
    conn.execute(
        "INSERT INTO stage (number, load_date, extracts) VALUES (1, ?1, ?2)",
        &values,
    )?;
    Ok(())
}

// The numbers of feeds that a text says. A fault where it says none.
fn feeds_of(alloc: Global, text: &[u8]) -> Result<List<u32>> {
    let mut feeds = List::new(alloc);
    let text = std::str::from_utf8(text).ok().ok_or(Refusal::Fault)?;
    for word in text.split_ascii_whitespace() {
        feeds.push(word.parse::<u32>().ok().ok_or(Refusal::Fault)?)?;
    }
    Ok(feeds)
}

/// The heads of the sealed windows, in order.
pub(crate) fn windows<S: Alter>(conn: &mut Connection<S>) -> Result<List<WindowHead>> {
    let rows = conn.query_all("SELECT load_date, feeds FROM windows ORDER BY place", &[])?;
    let alloc = *rows.allocator();
    let mut heads = List::new(alloc);
    for row in rows.iter() {
        let mut cells = Cells::new(alloc, row, &[]);
        let load = cells.date()?;
        let feeds = feeds_of(alloc, cells.letters()?)?;
        heads.push(WindowHead { load, feeds })?;
    }
    Ok(heads)
}

/// Records the head of the open window behind the others, with spaces between the numbers of its feeds,
/// and closes the window. A fault where no window is open that has its load date.
pub(crate) fn seal<S: Alter>(conn: &mut Connection<S>, head: &WindowHead) -> Result<()> {
    let load = head.load.print();
    let mut feeds = String::new(head.feeds.allocator());
    for feed in head.feeds.items() {
        if !feeds.is_empty() {
            feeds.push(' ')?;
        }
        write!(feeds, "{feed}")?;
    }
    let values = [ValueRef::Text(&load), ValueRef::Text(feeds.as_bytes())];
    let date = [ValueRef::Text(&load)];
    change_both(conn, PUT_WINDOW, &values, DROP_STAGE, &date)
}

/// The heads of the stored snapshots, by date.
pub(crate) fn snapshots<S: Alter>(conn: &mut Connection<S>) -> Result<List<SnapHead>> {
    let rows = conn.query_all(SNAPSHOTS, &[])?;
    let alloc = *rows.allocator();
    let mut heads = List::new(alloc);
    for row in rows.iter() {
        let mut cells = Cells::new(alloc, row, &[]);
        heads.push(SnapHead {
            date: cells.date()?,
            rows: cells.count()?,
            weight: cells.count()?,
        })?;
    }
    Ok(heads)
}

/// Stores a snapshot. A fault where one is stored at its date, and where a table is given twice or has
/// rows of another kind.
pub(crate) fn put_snapshot<S: Alter>(
    conn: &mut Connection<S>,
    head: &SnapHead,
    tables: &List<SnapTable>,
) -> Result<()> {
    let date = head.date.print();
    let values = [
        ValueRef::Text(&date),
        ValueRef::Int(number(head.rows)?),
        ValueRef::Int(number(head.weight)?),
    ];
    let mut tx = begun(conn)?;
    change_rows(&mut tx, PUT_SNAPSHOT, &values, 1)?;
    for table in tables.items() {
        put_rows(&mut tx, Table::Stored(table.id, &date), &table.rows)?;
    }
    Ok(tx.commit()?)
}
