// Look-ups in an index by binary search.
ghost use Rattle.std.specs.Prelude.{◌≡◌, ◌≤◌, IsTrue, length, option_map};
ghost use Rattle.std.specs.Str.{bytes_eq};
ghost use Rattle.dv_index.specs.Numbers.{AreEntries, AreRuns, IsEntry, IsReachedPoint, loads_of, numbers_of, parents_of};
ghost use Rattle.dv_index.specs.Numbers as spec;
ghost use Rattle.dv_index.specs.Places.{are_in_load_order, latest_at};

use crate::entries::Entry;
use crate::numbers::{is_early, parent_at};
use crate::placed::Placed;
use dv_text::{Digest, Stamp};
use std::cmp::Ordering;

// Whether the row with a number is of a lesser parent, or of this one and not later than the date.
pub(crate) fn is_reached<R: Placed>(rows: &[R], number: usize, parent: &[u8], date: Stamp) -> bool
    ensures { result ≡ spec.is_reached (parents_of R.place rows.now) (loads_of R.place rows.now) parent.now date number }
{
    match parent_at(rows, number).cmp(&parent) {
        Ordering::Less => true,
        Ordering::Equal => is_early(rows, number, date),
        Ordering::Greater => false,
    }
}

// The same of an entry: its row is read only where its prefix is that of the parent.
pub(crate) fn is_entry_reached<R: Placed>(
    rows: &[R],
    entry: Entry,
    prefix: u64,
    parent: &Digest,
    date: Stamp,
) -> bool
    ensures { result ≡ spec.is_entry_reached (parents_of R.place rows.now) (loads_of R.place rows.now) parent.now prefix date entry }
{
    match entry.prefix.cmp(&prefix) {
        Ordering::Less => true,
        Ordering::Equal => is_reached(rows, entry.number, parent.bytes(), date),
        Ordering::Greater => false,
    }
}

// How many of the index's first entries are of a lesser parent, or of this one and not later than the date.
fn reached_count<R: Placed>(rows: &[R], index: &[Entry], parent: &Digest, date: Stamp) -> usize
    requires index { AreEntries (parents_of R.place rows.now) index.now }
    requires order { IsTrue (are_in_load_order R.place rows.now) }
    ensures within { result ≤ length index.now }
    ensures point { IsReachedPoint (parents_of R.place rows.now) (loads_of R.place rows.now) parent.now date (numbers_of index.now) result }
{
    let prefix = parent.prefix();
    index.partition_point(|entry| is_entry_reached(rows, *entry, prefix, parent, date))
}

// Whether the row of an entry is of a parent: it is read only where their prefixes tie.
fn is_of<R: Placed>(rows: &[R], entry: Entry, parent: &Digest) -> bool
    requires { IsEntry (parents_of R.place rows.now) entry }
    ensures { result ≡ bytes_eq (spec.parent_at (parents_of R.place rows.now) entry.number) parent.now }
{
    entry.prefix == parent.prefix() && parent_at(rows, entry.number) == parent.bytes()
}

// The row of the last of so many first entries, if it is of the parent.
pub(crate) fn row_before<'a, R: Placed>(
    rows: &'a [R],
    index: &[Entry],
    parent: &Digest,
    count: usize,
) -> Option<&'a R>
    requires index { AreEntries (parents_of R.place rows.now) index.now }
    requires within { count ≤ length index.now }
    ensures { option_map (λ row. row.now) result ≡ spec.row_before R.place rows.now (numbers_of index.now) parent.now count }
{
    if count == 0 {
        return None;
    }
    let entry = index[count - 1];
    if is_of(rows, entry, parent) {
        rows.get(entry.number)
    } else {
        None
    }
}

// The parent's last row that is not later than the date, by an index of all rows.
pub(crate) fn latest_in<'a, R: Placed>(
    rows: &'a [R],
    index: &[Entry],
    parent: &Digest,
    date: Stamp,
) -> Option<&'a R>
    requires index { AreEntries (parents_of R.place rows.now) index.now }
    requires order { IsTrue (are_in_load_order R.place rows.now) }
    ensures { option_map (λ row. row.now) result ≡ latest_at R.place rows.now parent.now date }
{
    row_before(
        rows,
        index,
        parent,
        reached_count(rows, index, parent, date),
    )
}

// The parent's last row that is not later than the date: among the newer rows, and else among the older ones.
pub(crate) fn latest<'a, R: Placed>(
    rows: &'a [R],
    index: &[Entry],
    recent: &[Entry],
    parent: &Digest,
    date: Stamp,
) -> Option<&'a R>
    requires runs { AreRuns R.place rows.now index.now recent.now }
    requires order { IsTrue (are_in_load_order R.place rows.now) }
    ensures { option_map (λ row. row.now) result ≡ latest_at R.place rows.now parent.now date }
{
    let (older, newer) = rows.split_at(index.len());
    match latest_in(newer, recent, parent, date) {
        Some(row) => Some(row),
        None => latest_in(older, index, parent, date),
    }
}
