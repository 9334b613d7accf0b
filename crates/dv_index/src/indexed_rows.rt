ghost use Rattle.std.specs.Prelude.{◌≡◌, ◌≤◌, ◌<◌, ◌+◌, ◌++◌, ℕ, IfOk, IsTrue, OnOk, false, length, map, option_map, true, vec_capacity};
ghost use Rattle.dv_index.specs.Places.{are_in_load_order, fits_at, latest_at, latest_of_each};

use crate::entries::Entry;
use crate::merges::grow_runs;
use crate::numbers::complete;
use crate::placed::Placed;
use crate::successions::Succession;
use crate::{askings, searches, successions, walks};
use dv_text::{Digest, List, Memory, Stamp};
use std::alloc::Global;
use std::marker::Model;

/// Rows in the order in which they were appended, with an index by parent and load date. Contracts see them
/// as the rows, and for how many more there is room.
#[derive(Drop)]
pub struct IndexedRows<R: Placed> {
    rows: Vec<R>,
    // Of the first rows, as many as it has entries.
    index: Vec<Entry>,
    // Of the rows behind those, which it numbers from 0. They are few, so that a few more move few entries.
    recent: Vec<Entry>,
    // Empty between calls: room in which the entries of new rows are put in order.
    arrivals: Vec<Entry>,
}

// An index has at least so many entries for each of those that stand apart.
const MAIN_BY_RECENT: usize = 16;

impl<R: Placed> Model for IndexedRows<R> {
    ghost use Rattle.std.specs.Prelude.{◌≡◌, ◌-◌, [], IsTrue, length, min, vec_capacity};
    ghost use Rattle.dv_index.specs.Numbers.{AreRuns};
    ghost use Rattle.dv_index.specs.Places.{Indexed, are_in_load_order};

    ghost Value = { Indexed R };

    ghost view = { λ t. record {
      rows = t.rows.items;
      spare = min (vec_capacity t.rows - length t.rows.items) (min (vec_capacity t.index - length t.rows.items) (vec_capacity t.arrivals - length t.recent.items));
    } };

    ghost invariant = { λ t. AreRuns R.place t.rows.items t.index.items t.recent.items × IsTrue (are_in_load_order R.place t.rows.items) × (t.arrivals.items ≡ []) };
}

// Puts rows behind others, for which there is room. Takes no memory.
fn append_within<R: Placed>(rows: &mut Vec<R>, more: List<R>)
    requires { length rows.old.items + length more ≤ vec_capacity rows.old }
    ensures { rows.new.items ≡ rows.old.items ++ more }
{
    more.append_to(rows);
}

impl<R: Placed> IndexedRows<R> {
    /// The table of these rows. Condition: their load dates do not fall.
    pub fn from_rows(alloc: Global, rows: List<R>) -> Result<IndexedRows<R>, Memory>
        requires { IsTrue (are_in_load_order R.place rows) }
        ensures { IfOk result (λ table. table.rows ≡ rows) }
    {
        let rows = rows.into_vec()?;
        let mut index = Vec::with_capacity(alloc, rows.len())?;
        complete(&rows, &mut index);
        Ok(IndexedRows {
            rows,
            index,
            recent: Vec::new(alloc),
            arrivals: Vec::new(alloc),
        })
    }

    /// The allocator that the table keeps: there is one, so no clause says which. Takes no memory.
    pub fn allocator(&self) -> Global {
        *self.rows.allocator()
    }

    /// The rows, in the order in which they were appended. Takes no memory.
    pub fn rows(&self) -> &[R]
        ensures { result.now ≡ self.now.rows }
    {
        self.rows.as_slice()
    }

    /// The rows themselves, without their index. Takes no memory.
    pub fn into_rows(self) -> List<R>
        ensures { result ≡ self.rows }
    {
        List::from_vec(self.rows)
    }

    /// The parent's last row that is not later than the date; none where there is no such row. Takes no
    /// memory, and compares a number of rows that is logarithmic in their number.
    pub fn latest(&self, parent: &Digest, date: Stamp) -> Option<&R>
        ensures { option_map (λ row. row.now) result ≡ latest_at R.place self.now.rows parent.now date }
    {
        searches::latest(&self.rows, &self.index, &self.recent, parent, date)
    }

    /// Of each of these parents its last row that is not later than the date, in their order; none where it
    /// has no such row. The parents are put in order first, so that one walk over the index finds all.
    pub fn latest_of(&self, parents: &[Digest], date: Stamp) -> Result<Vec<Option<&R>>, Memory>
        ensures { IfOk result (λ found. map (option_map (λ row. row.now)) found.items ≡ map (λ parent. latest_at R.place self.now.rows parent date) parents.now) }
    {
        askings::latest_of(
            self.allocator(),
            &self.rows,
            &self.index,
            &self.recent,
            parents,
            date,
        )
    }

    /// The last row of each parent that is not later than the date, by parent: the references point into the
    /// table. One walk over the index.
    pub fn latest_of_each(&self, date: Stamp) -> Result<Vec<&R>, Memory>
        ensures { IfOk result (λ found. map (λ row. row.now) found.items ≡ latest_of_each R.place self.now.rows date) }
    {
        walks::latest_of_each(
            self.allocator(),
            &self.rows,
            &self.index,
            &self.recent,
            date,
        )
    }

    /// How many of the first rows fit the last row of their parent before them: all, or those before the first row
    /// that doesn't. Takes no memory. One walk over the index.
    pub fn fit_count<S: Succession<R>>(&self, succession: &S) -> usize
        ensures within { result ≤ length self.now.rows }
        ensures fit { (number : ℕ) → number < result → fits_at R.place (S.fits succession.now) self.now.rows number ≡ true }
        ensures stops { result < length self.now.rows → fits_at R.place (S.fits succession.now) self.now.rows result ≡ false }
    {
        successions::fit_count(&self.rows, &self.index, &self.recent, succession)
    }

    /// Makes room for so many more rows. The rows stay as they are, also for want of memory.
    pub fn reserve(&mut self, more: u64) -> Result<(), Memory>
        ensures rows { self.new.rows ≡ self.old.rows }
        ensures room { OnOk result (more ≤ self.new.spare) }
    {
        let more = more as usize;
        self.rows.reserve(more)?;
        let behind = self.recent.len() + more;
        self.index.reserve(behind)?;
        self.arrivals.reserve(behind)?;
        if behind <= self.index.len() / MAIN_BY_RECENT {
            self.recent.reserve(more)?;
        }
        Ok(())
    }

    /// Appends rows. Conditions: there is room for them, and the load dates of all rows do not fall. Takes no
    /// memory. The new rows are put in order and find their places in the index one after another. Few rows beside
    /// those of the table go into an index of their own first, so that they don't move what is there.
    pub fn apply(&mut self, rows: List<R>)
        requires room { length rows ≤ self.old.spare }
        requires order { IsTrue (are_in_load_order R.place (self.old.rows ++ rows)) }
        ensures { self.new.rows ≡ self.old.rows ++ rows }
    {
        if rows.items().is_empty() {
            return;
        }
        append_within(&mut self.rows, rows);
        grow_runs(
            &self.rows,
            &mut self.index,
            &mut self.recent,
            &mut self.arrivals,
        );
    }
}
