// Rows by their numbers, and their entries in the order of an index.
ghost use Rattle.std.specs.Prelude.{◌≡◌, ◌≤◌, ◌<◌, ◌-◌, [], All, length, map, nat_le, vec_capacity};
ghost use Rattle.std.specs.List.{range_with_len};
ghost use Rattle.std.specs.List.Sorted.{IsPermutation, IsSorted};
ghost use Rattle.dv_index.specs.Numbers.{entry_cmp, parents_of, loads_of, AreEntries, IsEntry};
ghost use Rattle.dv_index.specs.Numbers as spec;

use crate::entries::Entry;
use crate::placed::Placed;
use dv_text::Stamp;
use std::cmp::Ordering;

// The bytes of the parent of the row with a number, and none where there is no such row.
pub(crate) fn parent_at<R: Placed>(rows: &[R], number: usize) -> &[u8]
    ensures { result.now ≡ spec.parent_at (parents_of R.place rows.now) number }
{
    match rows.get(number) {
        Some(row) => row.parent().bytes(),
        None => &[],
    }
}

// Whether the row with a number is not later than a date.
pub(crate) fn is_early<R: Placed>(rows: &[R], number: usize, date: Stamp) -> bool
    ensures { result ≡ nat_le (spec.load_at (loads_of R.place rows.now) number) date }
{
    match rows.get(number) {
        Some(row) => row.load() <= date,
        None => true,
    }
}

// Rows by their numbers: by parent, then by number.
fn compared_rows<R: Placed>(rows: &[R], a: usize, b: usize) -> Ordering
    ensures { result ≡ spec.number_cmp (parents_of R.place rows.now) a b }
{
    parent_at(rows, a).cmp(&parent_at(rows, b)).then(a.cmp(&b))
}

// Entries by their prefixes; the rows are read only where these tie.
pub(crate) fn compared<R: Placed>(rows: &[R], a: Entry, b: Entry) -> Ordering
    ensures { result ≡ entry_cmp (parents_of R.place rows.now) a b }
{
    match a.prefix.cmp(&b.prefix) {
        Ordering::Equal => compared_rows(rows, a.number, b.number),
        unequal => unequal,
    }
}

// The entry of the row with a number.
fn entry_at<R: Placed>(rows: &[R], number: usize) -> Entry
    requires { number < length rows.now }
    ensures value { result ≡ spec.entry_at (parents_of R.place rows.now) number }
    ensures kept { IsEntry (parents_of R.place rows.now) result }
{
    Entry {
        prefix: rows[number].parent().prefix(),
        number,
    }
}

// Makes the entries of the rows from a start on in a list without any, in which there is room. Takes no memory.
pub(crate) fn put_entries<R: Placed>(rows: &[R], made: &mut Vec<Entry>, start: usize)
    requires range { start ≤ length rows.now }
    requires none { made.old.items ≡ [] }
    requires room { length rows.now - start ≤ vec_capacity made.old }
    ensures items { made.new.items ≡ map (spec.entry_at (parents_of R.place rows.now)) (range_with_len start (length rows.now - start)) }
    ensures each { All (IsEntry (parents_of R.place rows.now)) made.new.items }
{
    for number in start..rows.len() {
        match made.push(entry_at(rows, number)) {
            Ok(()) => {}
            Err(_) => unreachable!(),
        }
    }
}

// Puts entries in order. Takes no memory.
pub(crate) fn sort_entries<R: Placed>(rows: &[R], index: &mut Vec<Entry>)
    ensures each { IsPermutation index.old.items index.new.items }
    ensures ordered { IsSorted (entry_cmp (parents_of R.place rows.now)) index.new.items }
{
    index.sort_unstable_by(|a, b| compared(rows, *a, *b));
}

// Makes the index of rows in a list without any entry, in which there is room. Takes no memory.
pub(crate) fn complete<R: Placed>(rows: &[R], index: &mut Vec<Entry>)
    requires none { index.old.items ≡ [] }
    requires room { length rows.now ≤ vec_capacity index.old }
    ensures { AreEntries (parents_of R.place rows.now) index.new.items }
{
    put_entries(rows, index, 0);
    sort_entries(rows, index);
}
