// Each row beside the last row of its parent before it.
ghost use Rattle.std.specs.Prelude.{◌≡◌, ◌<◌, ◌≤◌, ◌+◌, ◌++◌, ℕ, Bool, IsTrue, Option, false, length, option_map, slice_index, true};
ghost use Rattle.dv_index.specs.Numbers.{AreEntries, AreRuns, numbers_of, parents_of};
ghost use Rattle.dv_index.specs.Places.{are_in_load_order, fits_at};

use crate::entries::Entry;
use crate::placed::Placed;
use crate::searches::{latest_in, row_before};

/// A test of rows beside the last row of their parent before them.
pub trait Succession<R> {
    /// Whether a row fits the last row of its parent before it, if there is one.
    ghost fits: { Self → Option R → R → Bool };

    /// Whether a row fits the last row of its parent before it, if there is one. Takes no memory.
    fn fits(&self, last: Option<&R>, row: &R) -> bool
        ensures { result ≡ fits self.now (option_map (λ row. row.now) last.entry) row.now };
}

// Whether the row at a place of the newer rows' index fits the last row of its parent before it.
fn is_fit<R: Placed, S: Succession<R>>(
    older: &[R],
    index: &[Entry],
    newer: &[R],
    recent: &[Entry],
    place: usize,
    succession: &S,
) -> bool
    requires older { AreEntries (parents_of R.place older.now) index.now }
    requires newer { AreEntries (parents_of R.place newer.now) recent.now }
    requires order { IsTrue (are_in_load_order R.place (older.now ++ newer.now)) }
    requires within { place < length recent.now }
    ensures { result ≡ fits_at R.place (S.fits succession.now) (older.now ++ newer.now) (length older.now + slice_index (numbers_of recent.now) place) }
{
    let row = &newer[recent[place].number];
    let last = row_before(newer, recent, row.parent(), place);
    let last = last.or(latest_in(older, index, row.parent(), row.load()));
    succession.fits(last, row)
}

// How many of the first of newer rows fit, which stand behind older ones. One walk over the index.
fn newer_fit_count<R: Placed, S: Succession<R>>(
    older: &[R],
    index: &[Entry],
    newer: &[R],
    recent: &[Entry],
    succession: &S,
) -> usize
    requires older { AreEntries (parents_of R.place older.now) index.now }
    requires newer { AreEntries (parents_of R.place newer.now) recent.now }
    requires order { IsTrue (are_in_load_order R.place (older.now ++ newer.now)) }
    ensures within { result ≤ length newer.now }
    ensures fit { (number : ℕ) → number < result → fits_at R.place (S.fits succession.now) (older.now ++ newer.now) (length older.now + number) ≡ true }
    ensures stops { result < length newer.now → fits_at R.place (S.fits succession.now) (older.now ++ newer.now) (length older.now + result) ≡ false }
{
    let mut least = newer.len();
    for place in 0..recent.len() {
        if !is_fit(older, index, newer, recent, place, succession) {
            least = least.min(recent[place].number);
        }
    }
    least
}

// How many of the first rows fit. One walk over both indexes.
pub(crate) fn fit_count<R: Placed, S: Succession<R>>(
    rows: &[R],
    index: &[Entry],
    recent: &[Entry],
    succession: &S,
) -> usize
    requires runs { AreRuns R.place rows.now index.now recent.now }
    requires order { IsTrue (are_in_load_order R.place rows.now) }
    ensures within { result ≤ length rows.now }
    ensures fit { (number : ℕ) → number < result → fits_at R.place (S.fits succession.now) rows.now number ≡ true }
    ensures stops { result < length rows.now → fits_at R.place (S.fits succession.now) rows.now result ≡ false }
{
    let (older, newer) = rows.split_at(index.len());
    let count = newer_fit_count(&[], &[], older, index, succession);
    if count < older.len() {
        return count;
    }
    count + newer_fit_count(older, index, newer, recent, succession)
}
