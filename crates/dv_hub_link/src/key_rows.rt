// Rows of which no two have one hash key: what the tables of hubs and links are made of.
ghost use Rattle.std.specs.Prelude.{◌≡◌, ◌≤◌, ◌++◌, IfOk, IsTrue, OnOk, length, map, nat_le, option_map};
ghost use Rattle.std.specs.List.{list_all};
ghost use Rattle.dv_hub_link.specs.PlacedRows as spec;
ghost use Rattle.dv_hub_link.specs.PlacedRows.{are_placed_rows};

use dv_index::{IndexedRows, Placed};
use dv_text::{Digest, List, Memory, Stamp};
use std::alloc::Global;
use std::marker::Model;

/// Rows in the order in which they were loaded. Contracts see them as the rows, and for how many more there is
/// room. No two rows have one hash key, and their load dates do not fall.
#[derive(Drop)]
pub(crate) struct KeyRows<R: Placed> {
    indexed: IndexedRows<R>,
}

impl<R: Placed> Model for KeyRows<R> {
    ghost use Rattle.std.specs.Prelude.{IsTrue};
    ghost use Rattle.dv_index.specs.Places.{Indexed};
    ghost use Rattle.dv_hub_link.specs.PlacedRows.{are_placed_rows};

    ghost Value = { Indexed R };

    ghost view = { λ t. t.indexed };

    ghost invariant = { λ t. IsTrue (are_placed_rows R.place t.indexed.rows) };
}

impl<R: Placed> KeyRows<R> {
    /// Condition: no two rows have one hash key, and their load dates do not fall.
    pub(crate) fn from_rows(alloc: Global, rows: List<R>) -> Result<KeyRows<R>, Memory>
        requires { IsTrue (are_placed_rows R.place rows) }
        ensures { IfOk result (λ table. table.rows ≡ rows) }
    {
        let indexed = IndexedRows::from_rows(alloc, rows)?;
        Ok(KeyRows { indexed })
    }

    /// The same of rows that have an index. Condition: no two rows have one hash key. Takes no memory.
    pub(crate) fn from_indexed(indexed: IndexedRows<R>) -> KeyRows<R>
        requires { IsTrue (are_placed_rows R.place indexed.rows) }
        ensures { result ≡ indexed }
    {
        KeyRows { indexed }
    }

    /// The allocator that the table keeps: there is one, so no clause says which. Takes no memory.
    pub(crate) fn allocator(&self) -> Global {
        self.indexed.allocator()
    }

    /// The rows, in the order in which they were loaded. Takes no memory.
    pub(crate) fn rows(&self) -> &[R]
        ensures value { result.now ≡ self.now.rows }
        ensures kept { IsTrue (are_placed_rows R.place self.now.rows) }
    {
        self.indexed.rows()
    }

    /// The rows themselves. Takes no memory.
    pub(crate) fn into_rows(self) -> List<R>
        ensures value { result ≡ self.rows }
        ensures kept { IsTrue (are_placed_rows R.place self.rows) }
    {
        self.indexed.into_rows()
    }

    /// Does nothing: a call tells a proof what the rows keep to.
    pub(crate) fn note_rows(&self)
        ensures { IsTrue (are_placed_rows R.place self.now.rows) }
    {
        let _rows = self.indexed.rows();
    }

    /// The row with a hash key; none exactly where no row has it. Takes no memory.
    pub(crate) fn row(&self, d: &Digest) -> Option<&R>
        ensures { option_map (λ row. row.now) result ≡ spec.row_under R.place d.now self.now.rows }
    {
        let last = self.indexed.rows().last()?;
        self.indexed.latest(d, last.load())
    }

    /// Whether a row has this hash key. Takes no memory.
    #[tactic(auto, using(crate::proofs::Placed::has_by_row))]
    pub(crate) fn has(&self, d: &Digest) -> bool
        ensures { result ≡ spec.has_row_under R.place d.now self.now.rows }
    {
        self.row(d).is_some()
    }

    // A date than which no row is later.
    fn last_load(&self) -> Stamp
        ensures { IsTrue (list_all (λ row. nat_le (R.place row).load result) self.now.rows) }
    {
        match self.indexed.rows().last() {
            None => Stamp::OPEN,
            Some(last) => last.load(),
        }
    }

    /// Of each of these hash keys its row, in their order; none exactly where no row has it.
    pub(crate) fn rows_of(&self, digests: &[Digest]) -> Result<Vec<Option<&R>>, Memory>
        ensures { IfOk result (λ found. map (option_map (λ row. row.now)) found.items ≡ map (λ d. spec.row_under R.place d self.now.rows) digests.now) }
    {
        let date = self.last_load();
        let found = self.indexed.latest_of(digests, date)?;
        Ok(found)
    }

    /// Makes room for so many more rows. The rows stay as they are, also for want of memory.
    pub(crate) fn reserve(&mut self, more: u64) -> Result<(), Memory>
        ensures rows { self.new.rows ≡ self.old.rows }
        ensures room { OnOk result (more ≤ self.new.spare) }
    {
        self.indexed.reserve(more)
    }

    /// Appends rows. Conditions: there is room for them; no two of all rows have one hash key, and the load
    /// dates of all rows do not fall. Takes no memory.
    pub(crate) fn apply(&mut self, rows: List<R>)
        requires room { length rows ≤ self.old.spare }
        requires whole { IsTrue (are_placed_rows R.place (self.old.rows ++ rows)) }
        ensures { self.new.rows ≡ self.old.rows ++ rows }
    {
        self.indexed.apply(rows);
    }
}
