// Look-ups of many parents one after another.
ghost use Rattle.std.specs.Prelude.{◌≡◌, ◌≤◌, All, IfOk, IsTrue, length, map, option_map, take, true};
ghost use Rattle.std.specs.List.{range_with_len};
ghost use Rattle.std.specs.List.Sorted.{IsPermutation};
ghost use Rattle.dv_text.specs.Digests.{IsDigest, digest_prefix};
ghost use Rattle.dv_index.specs.Numbers.{AreEntries, AreRuns, IsReachedPoint, is_entry_reached, loads_of, numbers_of, parents_of};
ghost use Rattle.dv_index.specs.Places.{are_in_load_order, latest_at};

use crate::entries::Entry;
use crate::placed::Placed;
use crate::searches;
use crate::searches::row_before;
use dv_text::{Digest, Memory, Stamp};
use std::alloc::Global;

// So many first entries, if the last of them is reached, and else none: all of them are reached.
fn start_at<R: Placed>(
    rows: &[R],
    index: &[Entry],
    prefix: u64,
    parent: &Digest,
    date: Stamp,
    hint: usize,
) -> usize
    requires index { AreEntries (parents_of R.place rows.now) index.now }
    requires order { IsTrue (are_in_load_order R.place rows.now) }
    requires wide { IsDigest parent.now }
    requires prefix { prefix ≡ digest_prefix parent.now }
    requires within { hint ≤ length index.now }
    ensures within { result ≤ length index.now }
    ensures reached { All (λ entry. is_entry_reached (parents_of R.place rows.now) (loads_of R.place rows.now) parent.now prefix date entry ≡ true) (take result index.now) }
{
    if hint > 0 && searches::is_entry_reached(rows, index[hint - 1], prefix, parent, date) {
        hint
    } else {
        0
    }
}

// How many of the index's first entries are reached, where so many are known to be. The steps from there
// double until they are too long, so that a near one is found soon.
fn count_from<R: Placed>(
    rows: &[R],
    index: &[Entry],
    prefix: u64,
    parent: &Digest,
    date: Stamp,
    start: usize,
) -> usize
    requires index { AreEntries (parents_of R.place rows.now) index.now }
    requires order { IsTrue (are_in_load_order R.place rows.now) }
    requires wide { IsDigest parent.now }
    requires prefix { prefix ≡ digest_prefix parent.now }
    requires within { start ≤ length index.now }
    requires reached { All (λ entry. is_entry_reached (parents_of R.place rows.now) (loads_of R.place rows.now) parent.now prefix date entry ≡ true) (take start index.now) }
    ensures within { result ≤ length index.now }
    ensures point { IsReachedPoint (parents_of R.place rows.now) (loads_of R.place rows.now) parent.now date (numbers_of index.now) result }
{
    let mut low = start;
    let mut high = index.len();
    while low < high {
        let probe = low + (low - start).min((high - low) / 2);
        if searches::is_entry_reached(rows, index[probe], prefix, parent, date) {
            low = probe + 1;
        } else {
            high = probe;
        }
    }
    low
}

// How many of the index's first entries are of a lesser parent, or of this one and not later than the date. A
// hint is where the last look-up ended: a wrong one costs time alone.
fn count_near<R: Placed>(
    rows: &[R],
    index: &[Entry],
    parent: &Digest,
    date: Stamp,
    hint: usize,
) -> usize
    requires index { AreEntries (parents_of R.place rows.now) index.now }
    requires order { IsTrue (are_in_load_order R.place rows.now) }
    requires within { hint ≤ length index.now }
    ensures within { result ≤ length index.now }
    ensures point { IsReachedPoint (parents_of R.place rows.now) (loads_of R.place rows.now) parent.now date (numbers_of index.now) result }
{
    let prefix = parent.prefix();
    let start = start_at(rows, index, prefix, parent, date, hint);
    count_from(rows, index, prefix, parent, date, start)
}

// The places of parents, with these parents' prefixes.
fn places_of(alloc: Global, parents: &[Digest]) -> Result<Vec<Entry>, Memory>
    ensures { IfOk result (λ made. numbers_of made.items ≡ range_with_len 0 (length parents.now)) }
{
    let mut made = Vec::with_capacity(alloc, parents.len())?;
    for number in 0..parents.len() {
        let prefix = parents[number].prefix();
        made.push(Entry { prefix, number })?;
    }
    Ok(made)
}

// The places of parents, those with lesser prefixes first.
fn places_by_prefix(alloc: Global, parents: &[Digest]) -> Result<Vec<Entry>, Memory>
    ensures { IfOk result (λ made. IsPermutation (range_with_len 0 (length parents.now)) (numbers_of made.items)) }
{
    let mut made = places_of(alloc, parents)?;
    made.sort_unstable_by(|a, b| a.prefix.cmp(&b.prefix));
    Ok(made)
}

// Of each parent its last row that is not later than the date, in their order, where their places are given in any
// order: among the newer rows, and else among the older ones. Each look-up goes on where the last one ended.
fn answers<'a, R: Placed>(
    alloc: Global,
    rows: &'a [R],
    index: &[Entry],
    recent: &[Entry],
    parents: &[Digest],
    asked: &[Entry],
    date: Stamp,
) -> Result<Vec<Option<&'a R>>, Memory>
    requires runs { AreRuns R.place rows.now index.now recent.now }
    requires order { IsTrue (are_in_load_order R.place rows.now) }
    requires asked { IsPermutation (range_with_len 0 (length parents.now)) (numbers_of asked.now) }
    ensures { IfOk result (λ found. map (option_map (λ row. row.now)) found.items ≡ map (λ parent. latest_at R.place rows.now parent date) parents.now) }
{
    let (older, newer) = rows.split_at(index.len());
    let mut found = Vec::from_elem(alloc, None, parents.len())?;
    let (mut older_count, mut newer_count) = (0, 0);
    for entry in asked {
        let parent = &parents[entry.number];
        older_count = count_near(older, index, parent, date, older_count);
        newer_count = count_near(newer, recent, parent, date, newer_count);
        found[entry.number] = row_before(newer, recent, parent, newer_count).or(row_before(
            older,
            index,
            parent,
            older_count,
        ));
    }
    Ok(found)
}

// Of each parent its last row that is not later than the date, in their order. They are asked for in the order of
// their prefixes.
pub(crate) fn latest_of<'a, R: Placed>(
    alloc: Global,
    rows: &'a [R],
    index: &[Entry],
    recent: &[Entry],
    parents: &[Digest],
    date: Stamp,
) -> Result<Vec<Option<&'a R>>, Memory>
    requires runs { AreRuns R.place rows.now index.now recent.now }
    requires order { IsTrue (are_in_load_order R.place rows.now) }
    ensures { IfOk result (λ found. map (option_map (λ row. row.now)) found.items ≡ map (λ parent. latest_at R.place rows.now parent date) parents.now) }
{
    let asked = places_by_prefix(alloc, parents)?;
    let found = answers(alloc, rows, index, recent, parents, &asked, date)?;
    Ok(found)
}
