// The parents that are there after the last row of a table, as a list that the table keeps.
ghost use Rattle.std.specs.Prelude.{◌≡◌, ◌≤◌, ◌+◌, ◌++◌, [], IfOk, Some, filter, length, map, vec_capacity};
ghost use Rattle.std.specs.List.Sorted.{IsStrictlySortedBy};
ghost use Rattle.dv_text.specs.Sorting.{sorted_by};
ghost use Rattle.dv_index.specs.Numbers.{parents_of};
ghost use Rattle.dv_records.specs.Batches.{digest_cmp};
ghost use Rattle.dv_track.specs.Presences.{parents_there, there_at, updated};

use crate::merges::merge;
use crate::removals::take_out;
use crate::telling::Telling;
use dv_index::{IndexedRows, Placed};
use dv_text::{Digest, Memory, Stamp};
use std::alloc::Global;

/// Whether a parent is there at a date: its last row that is not later says so. Takes no memory.
pub(crate) fn is_there<R: Telling>(indexed: &IndexedRows<R>, parent: &Digest, date: Stamp) -> bool
    ensures { result ≡ there_at R.place R.says indexed.now.rows parent.now date }
{
    match indexed.latest(parent, date) {
        Some(row) => row.is_there(),
        None => false,
    }
}

// The parents of the rows that say that their parent is there.
fn said_parents<R: Telling>(alloc: Global, rows: &[&R]) -> Result<Vec<Digest>, Memory>
    ensures { IfOk result (λ made. made.items ≡ parents_of R.place (filter (λ row. R.says (Some row)) (map (λ row. row.now) rows.now))) }
{
    let mut made = Vec::new(alloc);
    for row in rows {
        if row.is_there() {
            made.push(*row.parent())?;
        }
    }
    Ok(made)
}

/// The parents that are there at a date, ascending. One walk over the index.
pub(crate) fn parents_at<R: Telling>(
    indexed: &IndexedRows<R>,
    date: Stamp,
) -> Result<Vec<Digest>, Memory>
    ensures { IfOk result (λ found. found.items ≡ parents_there R.place R.says indexed.now.rows date) }
{
    let rows = indexed.latest_of_each(date)?;
    let found = said_parents(indexed.allocator(), &rows)?;
    Ok(found)
}

/// Puts the parents of rows at the end, for which there is room. Takes no memory.
pub(crate) fn put_parents<R: Placed>(parents: &mut Vec<Digest>, rows: &[R])
    requires { length parents.old.items + length rows.now ≤ vec_capacity parents.old }
    ensures { parents.new.items ≡ parents.old.items ++ parents_of R.place rows.now }
{
    for row in rows {
        match parents.push(*row.parent()) {
            Ok(()) => {}
            Err(_) => unreachable!(),
        }
    }
}

// Puts digests in order, each once. Takes no memory.
fn sort_distinct(digests: &mut Vec<Digest>)
    ensures value { digests.new.items ≡ sorted_by digest_cmp digests.old.items }
    ensures bound { length digests.new.items ≤ length digests.old.items }
{
    digests.sort_unstable();
    digests.dedup();
}

// Leaves those of some parents that are there at a date. Takes no memory.
fn keep_there<R: Telling>(parents: &mut Vec<Digest>, indexed: &IndexedRows<R>, date: Stamp)
    ensures items { parents.new.items ≡ filter (λ parent. there_at R.place R.says indexed.now.rows parent date) parents.old.items }
    ensures bound { length parents.new.items ≤ length parents.old.items }
{
    parents.retain(|parent| is_there(indexed, parent, date));
}

/// Brings the present parents, which ascend, up to all rows of a table, where the parents of the rows that are
/// new are touched, and no row is later than the date. There is room for them among the present ones; none is left
/// touched. Takes no memory.
pub(crate) fn update<R: Telling>(
    present: &mut Vec<Digest>,
    touched: &mut Vec<Digest>,
    indexed: &IndexedRows<R>,
    date: Stamp,
)
    requires order { IsStrictlySortedBy digest_cmp present.old.items }
    requires room { length present.old.items + length touched.old.items ≤ vec_capacity present.old }
    ensures present { present.new.items ≡ updated R.place R.says indexed.now.rows date present.old.items (sorted_by digest_cmp touched.old.items) }
    ensures touched { touched.new.items ≡ [] }
{
    sort_distinct(touched);
    take_out(present, touched);
    keep_there(touched, indexed, date);
    merge(present, touched);
    touched.clear();
}
