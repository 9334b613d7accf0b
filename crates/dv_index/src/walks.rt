// One walk over an index.
ghost use Rattle.std.specs.Prelude.{◌≡◌, ◌<◌, IfOk, IsTrue, length, map, option_map};
ghost use Rattle.std.specs.List.{filter_map, range_with_len};
ghost use Rattle.dv_index.specs.Numbers.{AreEntries, AreRuns, last_row, loads_of, numbers_of, parents_of};
ghost use Rattle.dv_index.specs.Numbers as spec;
ghost use Rattle.dv_index.specs.Places.{are_in_load_order};
ghost use Rattle.dv_index.specs.Places as places;

use crate::entries::Entry;
use crate::merges::grow;
use crate::numbers::parent_at;
use crate::placed::Placed;
use crate::searches::is_reached;
use dv_text::{Memory, Stamp};
use std::alloc::Global;

fn is_reached_if<R: Placed>(rows: &[R], entry: Option<Entry>, parent: &[u8], date: Stamp) -> bool
    ensures { result ≡ spec.is_reached_if (parents_of R.place rows.now) (loads_of R.place rows.now) parent.now date (option_map (λ entry. entry.number) entry) }
{
    match entry {
        Some(entry) => is_reached(rows, entry.number, parent, date),
        None => false,
    }
}

// Whether the row at a place of the index is its parent's last one that is not later than a date.
fn is_last<R: Placed>(rows: &[R], index: &[Entry], place: usize, date: Stamp) -> bool
    requires { place < length index.now }
    ensures { result ≡ spec.is_last (parents_of R.place rows.now) (loads_of R.place rows.now) (numbers_of index.now) date place }
{
    let number = index[place].number;
    let parent = parent_at(rows, number);
    is_reached(rows, number, parent, date)
        && !is_reached_if(rows, index.get(place + 1).copied(), parent, date)
}

fn last_rows<'a, R: Placed>(
    alloc: Global,
    rows: &'a [R],
    index: &[Entry],
    date: Stamp,
) -> Result<Vec<&'a R>, Memory>
    requires { AreEntries (parents_of R.place rows.now) index.now }
    ensures { IfOk result (λ found. map (λ row. row.now) found.items ≡ filter_map (last_row R.place rows.now (numbers_of index.now) date) (range_with_len 0 (length index.now))) }
{
    let mut found = Vec::new(alloc);
    for place in 0..index.len() {
        if is_last(rows, index, place, date) {
            found.push(&rows[index[place].number])?;
        }
    }
    Ok(found)
}

// The index of all rows. One walk over both.
fn whole_index<R: Placed>(
    alloc: Global,
    rows: &[R],
    index: &[Entry],
    recent: &[Entry],
) -> Result<Vec<Entry>, Memory>
    requires { AreRuns R.place rows.now index.now recent.now }
    ensures { IfOk result (λ whole. AreEntries (parents_of R.place rows.now) whole.items) }
{
    let mut whole = Vec::with_capacity(alloc, rows.len())?;
    let mut arrivals = Vec::with_capacity(alloc, recent.len())?;
    whole.extend_from_slice(index)?;
    grow(rows, &mut whole, &mut arrivals);
    Ok(whole)
}

// The last row of each parent that is not later than the date, by parent and by an index of all rows.
fn latest_of_each_in<'a, R: Placed>(
    alloc: Global,
    rows: &'a [R],
    index: &[Entry],
    date: Stamp,
) -> Result<Vec<&'a R>, Memory>
    requires index { AreEntries (parents_of R.place rows.now) index.now }
    requires order { IsTrue (are_in_load_order R.place rows.now) }
    ensures { IfOk result (λ found. map (λ row. row.now) found.items ≡ places.latest_of_each R.place rows.now date) }
{
    let found = last_rows(alloc, rows, index, date)?;
    Ok(found)
}

// The last row of each parent that is not later than the date, by parent.
pub(crate) fn latest_of_each<'a, R: Placed>(
    alloc: Global,
    rows: &'a [R],
    index: &[Entry],
    recent: &[Entry],
    date: Stamp,
) -> Result<Vec<&'a R>, Memory>
    requires runs { AreRuns R.place rows.now index.now recent.now }
    requires order { IsTrue (are_in_load_order R.place rows.now) }
    ensures { IfOk result (λ found. map (λ row. row.now) found.items ≡ places.latest_of_each R.place rows.now date) }
{
    if index.len() == rows.len() {
        return latest_of_each_in(alloc, rows, index, date);
    }
    let whole = whole_index(alloc, rows, index, recent)?;
    latest_of_each_in(alloc, rows, &whole, date)
}
