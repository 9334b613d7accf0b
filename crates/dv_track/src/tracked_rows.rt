ghost use Rattle.std.specs.Prelude.{◌≡◌, ◌≤◌, ◌++◌, IfOk, IsTrue, OnOk, length, option_map};
ghost use Rattle.dv_index.specs.Places.{are_in_load_order, latest_at};
ghost use Rattle.dv_track.specs.Presences.{AreThere, parents_there, there_at};

use crate::loads::last_load;
use crate::presences::{is_there, parents_at, put_parents, update};
use crate::telling::Telling;
use dv_index::IndexedRows;
use dv_text::{Digest, List, Memory, Stamp};
use std::alloc::Global;
use std::marker::Model;

/// Rows that say whether their parents are there, with the list of those that are there after the last row.
/// Contracts see them as the rows, and for how many more there is room.
#[derive(Drop)]
pub(crate) struct TrackedRows<R: Telling> {
    indexed: IndexedRows<R>,
    // Those that are there after the last row, ascending: what the next extract is compared with.
    present: Vec<Digest>,
    // Empty between calls: room in which the parents of new rows are put in order.
    touched: Vec<Digest>,
}

impl<R: Telling> Model for TrackedRows<R> {
    ghost use Rattle.std.specs.Prelude.{◌≡◌, ◌-◌, [], length, min, vec_capacity};
    ghost use Rattle.dv_index.specs.Places.{Indexed};
    ghost use Rattle.dv_track.specs.Presences.{AreThere};

    ghost Value = { Indexed R };

    ghost view = { λ t. record {
      rows = t.indexed.rows;
      spare = min t.indexed.spare (min (vec_capacity t.touched) (vec_capacity t.present - length t.present.items));
    } };

    ghost invariant = { λ t. AreThere R.place R.says t.indexed.rows t.present.items × (t.touched.items ≡ []) };
}

impl<R: Telling> TrackedRows<R> {
    /// The table of these rows. Condition: their load dates do not fall.
    pub(crate) fn from_rows(alloc: Global, rows: List<R>) -> Result<TrackedRows<R>, Memory>
        requires { IsTrue (are_in_load_order R.place rows) }
        ensures { IfOk result (λ table. table.rows ≡ rows) }
    {
        let indexed = IndexedRows::from_rows(alloc, rows)?;
        TrackedRows::from_indexed(indexed)
    }

    /// The table of rows that have an index.
    pub(crate) fn from_indexed(indexed: IndexedRows<R>) -> Result<TrackedRows<R>, Memory>
        ensures { IfOk result (λ table. table.rows ≡ indexed.rows) }
    {
        let alloc = indexed.allocator();
        let last = last_load(indexed.rows());
        let present = parents_at(&indexed, last)?;
        Ok(TrackedRows {
            indexed,
            present,
            touched: Vec::new(alloc),
        })
    }

    /// The allocator that the table keeps: there is one, so no clause says which.
    pub(crate) fn allocator(&self) -> Global {
        self.indexed.allocator()
    }

    /// The rows, in their order. Takes no memory.
    pub(crate) fn rows(&self) -> &[R]
        ensures { result.now ≡ self.now.rows }
    {
        self.indexed.rows()
    }

    /// The rows themselves. Takes no memory.
    pub(crate) fn into_rows(self) -> List<R>
        ensures { result ≡ self.rows }
    {
        self.indexed.into_rows()
    }

    /// The parents that are there after the last row, ascending. Takes no memory.
    pub(crate) fn present(&self) -> &[Digest]
        ensures { AreThere R.place R.says self.now.rows result.now }
    {
        &self.present
    }

    /// The parent's last row that is not later than the date, if it has one. Takes no memory.
    pub(crate) fn latest(&self, parent: &Digest, date: Stamp) -> Option<&R>
        ensures { option_map (λ row. row.now) result ≡ latest_at R.place self.now.rows parent.now date }
    {
        self.indexed.latest(parent, date)
    }

    /// Whether a parent is there at a date: its last row that is not later says so. Takes no memory.
    pub(crate) fn is_there(&self, parent: &Digest, date: Stamp) -> bool
        ensures { result ≡ there_at R.place R.says self.now.rows parent.now date }
    {
        is_there(&self.indexed, parent, date)
    }

    /// The parents that are there at a date, ascending. One walk over the index.
    pub(crate) fn parents_at(&self, date: Stamp) -> Result<Vec<Digest>, Memory>
        ensures { IfOk result (λ found. found.items ≡ parents_there R.place R.says self.now.rows date) }
    {
        let found = parents_at(&self.indexed, date)?;
        Ok(found)
    }

    /// Makes room for so many more rows. The rows stay as they are, also for want of memory.
    pub(crate) fn reserve(&mut self, more: u64) -> Result<(), Memory>
        ensures rows { self.new.rows ≡ self.old.rows }
        ensures room { OnOk result (more ≤ self.new.spare) }
    {
        self.indexed.reserve(more)?;
        self.touched.reserve(more as usize)?;
        self.present.reserve(more as usize)?;
        Ok(())
    }

    /// Appends rows. Conditions: there is room for them, and the load dates of all rows do not fall. Takes no
    /// memory. The list of those that are there changes in its place.
    pub(crate) fn apply(&mut self, rows: List<R>)
        requires room { length rows ≤ self.old.spare }
        requires order { IsTrue (are_in_load_order R.place (self.old.rows ++ rows)) }
        ensures { self.new.rows ≡ self.old.rows ++ rows }
    {
        put_parents(&mut self.touched, rows.items());
        self.indexed.apply(rows);
        let last = last_load(self.indexed.rows());
        update(&mut self.present, &mut self.touched, &self.indexed, last);
    }
}
