// The snapshots that a keeper in memory keeps, by date.
ghost use Rattle.std.specs.Prelude.{◌≡◌, length, map, nat_le, IfOk, IsTrue, OnErr, OnOk};
ghost use Rattle.std.specs.List.{position};
ghost use Rattle.std.specs.Option.{unwrap_or};
ghost use Rattle.dv_text.specs.Sorting.{insert_by};
ghost use Rattle.dv_records.specs.Stores.{is_new_snapshot, no_snap_rows, page, rows_of_snap, snap_cmp, snap_id_eq, snapshot_rows};

use crate::snapshots::{Snap, SnapHead, SnapId, SnapTable};
use crate::stores::Rows;
use dv_text::{List, Memory, Stamp};
use std::alloc::Global;
use std::mem;

/// The heads of snapshots, in their order.
pub fn heads_of(alloc: Global, snaps: &[Snap]) -> Result<List<SnapHead>, Memory>
    ensures { IfOk result (λ heads. heads ≡ map (λ snap. snap.head) snaps.now) }
{
    let mut heads = List::new(alloc);
    for snap in snaps {
        heads.push(snap.head)?;
    }
    Ok(heads)
}

fn is_same_id(a: SnapId, b: SnapId) -> bool
    ensures { result ≡ snap_id_eq a b }
{
    a == b
}

// No rows, of the kind of a snapshot's table. Takes no memory.
fn none_of(alloc: Global, id: SnapId) -> Rows
    ensures { result ≡ no_snap_rows id }
{
    match id {
        SnapId::Pit(_) => Rows::Pits(List::new(alloc)),
        SnapId::Bridge(_) => Rows::Bridges(List::new(alloc)),
    }
}

// At most `most` of the rows of a snapshot's table, from place `from` on.
fn table_page(
    alloc: Global,
    tables: &[SnapTable],
    id: SnapId,
    from: u64,
    most: u32,
) -> Result<Rows, Memory>
    ensures { IfOk result (λ made. made ≡ page from most (rows_of_snap id tables.now)) }
{
    for entry in tables {
        if is_same_id(entry.id, id) {
            return entry.rows.page(alloc, from, most);
        }
    }
    Ok(none_of(alloc, id))
}

/// At most `most` of the rows of a table of the snapshot at a date, from place `from` on. Where the
/// snapshot of 1 March has `a`, `b`, `c` and `d` in a table, the two from place 1 on are `b` and
/// `c`; at a date without a snapshot there are none.
pub fn snapshot_page(
    alloc: Global,
    snaps: &[Snap],
    date: Stamp,
    id: SnapId,
    from: u64,
    most: u32,
) -> Result<Rows, Memory>
    ensures { IfOk result (λ made. made ≡ page from most (snapshot_rows date id snaps.now)) }
{
    for snap in snaps {
        if snap.head.date == date {
            return table_page(alloc, snap.tables.items(), id, from, most);
        }
    }
    Ok(none_of(alloc, id))
}

fn first_from(snaps: &[Snap], date: Stamp) -> Option<usize>
    ensures { result ≡ position (λ snap. nat_le date snap.head.date) snaps.now }
{
    snaps.iter().position(|snap| date <= snap.head.date)
}

// The place of the first snapshot that is not earlier than a date.
fn place_of(snaps: &[Snap], date: Stamp) -> usize
    ensures { result ≡ unwrap_or (position (λ snap. nat_le date snap.head.date) snaps.now) (length snaps.now) }
{
    match first_from(snaps, date) {
        Some(at) => at,
        None => snaps.len(),
    }
}

// Puts a snapshot in its place.
fn put(snaps: &mut Vec<Snap>, head: SnapHead, tables: List<SnapTable>) -> Result<(), Memory>
    requires { IsTrue (is_new_snapshot (record { head = head; tables = tables }) snaps.old.items) }
    ensures ok { OnOk result (snaps.new.items ≡ insert_by snap_cmp (record { head = head; tables = tables }) snaps.old.items) }
    ensures err { OnErr result (snaps.new.items ≡ snaps.old.items) }
{
    let at = place_of(snaps, head.date);
    snaps.insert(at, Snap { head, tables })?;
    Ok(())
}

/// Puts a snapshot among those that are stored, by date. For want of memory they are as before.
pub(crate) fn insert(
    alloc: Global,
    snaps: &mut List<Snap>,
    head: SnapHead,
    tables: List<SnapTable>,
) -> Result<(), Memory>
    requires { IsTrue (is_new_snapshot (record { head = head; tables = tables }) snaps.old) }
    ensures ok { OnOk result (snaps.new ≡ insert_by snap_cmp (record { head = head; tables = tables }) snaps.old) }
    ensures err { OnErr result (snaps.new ≡ snaps.old) }
{
    match mem::replace(snaps, List::new(alloc)).into_vec() {
        Ok(mut items) => {
            let done = put(&mut items, head, tables);
            *snaps = List::from_vec(items);
            done
        }
        Err(failed) => {
            *snaps = failed.value;
            Err(Memory)
        }
    }
}
