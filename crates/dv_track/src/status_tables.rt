ghost use Rattle.std.specs.Prelude.{◌≡◌, ◌≤◌, ◌<◌, ◌++◌, All, IfOk, IsTrue, OnOk, length};
ghost use Rattle.std.specs.List.Sorted.{IsStrictlySortedBy};
ghost use Rattle.dv_text.specs.Keys.{Hashes};
ghost use Rattle.dv_digest.specs.HashedExtracts.{HasKeys};
ghost use Rattle.dv_catalog.specs.Feeds.{source};
ghost use Rattle.dv_index.specs.Places as places;
ghost use Rattle.dv_index.specs.Places.{none_later};
ghost use Rattle.dv_records.specs.History.{all_refs};
ghost use Rattle.dv_records.specs.Reconstruction.{present_at};
ghost use Rattle.dv_records.specs.StatusPlaces.{status_place};
ghost use Rattle.dv_track.specs.Tracks.{keys_delta, present_parents, status_changes, status_delta, status_order, IsBatchAfter};
ghost use Rattle.dv_track.specs.Tracks as spec;

use crate::changes::changes_between;
use crate::loads::has_load;
use crate::tracked_rows::TrackedRows;
use dv_catalog::{Catalog, record_source};
use dv_digest::HashedExtract;
use dv_index::IndexedRows;
use dv_records::StatusRow;
use dv_text::{Digest, Duplicate, List, Memory, Stamp, Text, sorted_list};
use std::alloc::Global;
use std::marker::Model;

/// The status table of a feed: when each parent appeared and vanished. Contracts see it as its rows, and for
/// how many more there is room. The rows ascend by load date, then by parent.
#[derive(Drop)]
pub struct StatusTable {
    tracked: TrackedRows<StatusRow>,
}

impl Model for StatusTable {
    ghost use Rattle.std.specs.List.Sorted.{IsStrictlySortedBy};
    ghost use Rattle.dv_index.specs.Places.{Indexed};
    ghost use Rattle.dv_records.specs.declared.raw_rows.StatusRow.{StatusRow};
    ghost use Rattle.dv_track.specs.Tracks.{status_order};

    ghost Value = { Indexed StatusRow };

    ghost view = { λ table. table.tracked };

    ghost invariant = { λ table. IsStrictlySortedBy status_order table.tracked.rows };
}

impl StatusTable {
    /// The table of these rows. Condition: they ascend strictly by load date, then by parent.
    pub fn from_rows(alloc: Global, rows: List<StatusRow>) -> Result<StatusTable, Memory>
        requires { IsStrictlySortedBy status_order rows }
        ensures { IfOk result (λ table. table.rows ≡ rows) }
    {
        let tracked = TrackedRows::from_rows(alloc, rows)?;
        Ok(StatusTable { tracked })
    }

    /// The table of rows that have an index. Condition: they ascend strictly by load date, then by parent.
    pub fn from_indexed(indexed: IndexedRows<StatusRow>) -> Result<StatusTable, Memory>
        requires { IsStrictlySortedBy status_order indexed.rows }
        ensures { IfOk result (λ table. table.rows ≡ indexed.rows) }
    {
        let tracked = TrackedRows::from_indexed(indexed)?;
        Ok(StatusTable { tracked })
    }

    /// The rows, in their order. Takes no memory.
    pub fn rows(&self) -> &[StatusRow]
        ensures value { result.now ≡ self.now.rows }
        ensures kept { IsStrictlySortedBy status_order self.now.rows }
    {
        self.tracked.rows()
    }

    /// The rows themselves. Takes no memory.
    pub fn into_rows(self) -> List<StatusRow>
        ensures value { result ≡ self.rows }
        ensures kept { IsStrictlySortedBy status_order self.rows }
    {
        self.tracked.into_rows()
    }

    /// The allocator that the table keeps: there is one, so no clause says which.
    pub(crate) fn allocator(&self) -> Global {
        self.tracked.allocator()
    }

    /// Does nothing: a call tells a proof that the rows ascend.
    pub(crate) fn note_order(&self)
        ensures { IsStrictlySortedBy status_order self.now.rows }
    {
        let _rows = self.tracked.rows();
    }

    /// Makes room for so many more rows. The rows stay as they are, also for want of memory.
    pub fn reserve(&mut self, more: u64) -> Result<(), Memory>
        ensures rows { self.new.rows ≡ self.old.rows }
        ensures room { OnOk result (more ≤ self.new.spare) }
    {
        self.tracked.reserve(more)
    }

    /// Appends rows. Conditions: there is room for them, and all rows ascend strictly by load date, then by
    /// parent. Takes no memory.
    pub fn apply(&mut self, rows: List<StatusRow>)
        requires room { length rows ≤ self.old.spare }
        requires order { IsStrictlySortedBy status_order (self.old.rows ++ rows) }
        ensures { self.new.rows ≡ self.old.rows ++ rows }
    {
        self.tracked.apply(rows);
    }

    /// Whether a parent is present at a date: its last row that is not later says so. Takes no memory.
    pub fn present(&self, parent: &Digest, date: Stamp) -> bool
        ensures { result ≡ present_at self.now.rows parent.now date }
    {
        self.tracked.is_there(parent, date)
    }

    /// The parents that are present at a date, ascending.
    pub fn parents(&self, date: Stamp) -> Result<List<Digest>, Memory>
        ensures { IfOk result (λ found. found ≡ present_parents self.now.rows date) }
    {
        let found = self.tracked.parents_at(date)?;
        Ok(List::from_vec(found))
    }

    fn has_load(&self, load: Stamp) -> bool
        requires { IsTrue (none_later status_place self.now.rows load) }
        ensures value { result ≡ places.has_load status_place self.now.rows load }
        ensures ascending { IsStrictlySortedBy status_order self.now.rows }
    {
        has_load(self.tracked.rows(), load)
    }

    // The rows of the digests that appeared or vanished, without a walk over the table.
    fn changes(
        &self,
        load: Stamp,
        source: &Text,
        keys: &List<Digest>,
    ) -> Result<List<StatusRow>, Memory>
        requires { IsTrue (none_later status_place self.now.rows load) }
        ensures { IfOk result (λ made. made ≡ status_changes source.now self.now.rows load keys.now) }
    {
        let keys = keys.copy()?;
        let now = sorted_list(keys);
        let was = self.tracked.present();
        let made = changes_between(self.allocator(), load, source, was, now.items())?;
        Ok(made)
    }

    /// The rows that an extract adds: by hash key, one for each parent that appeared or vanished; none where
    /// the table has a row of this load date. They have the load date, and the table's rows followed by them
    /// ascend. Over the table of a feed's extracts before it, they are the extract's batch, where no two
    /// reference lists that the extracts deliver have one hash key. Conditions: the feed is in the mapping, and
    /// no row of the table is later than the load date.
    pub fn delta(
        &self,
        load: Stamp,
        extract: &HashedExtract<'_>,
        catalog: &Catalog,
    ) -> Result<List<StatusRow>, Memory>
        requires feed { extract.now.staged.now.feed < length catalog.now.feeds }
        requires not_later { IsTrue (none_later status_place self.now.rows load) }
        ensures delta { (hashes : Hashes) → HasKeys hashes extract.now → IfOk result (λ rows. rows ≡ status_delta hashes (source catalog.now extract.now.staged.now.feed) self.now.rows load (all_refs extract.now.staged.now.rows)) }
        ensures stamped { IfOk result (All (λ row. row.load ≡ load)) }
        ensures follows { IfOk result (λ rows. IsStrictlySortedBy status_order (self.now.rows ++ rows)) }
        ensures batch { (hashes : Hashes) → HasKeys hashes extract.now → IfOk result (IsBatchAfter hashes (source catalog.now extract.now.staged.now.feed) self.now.rows (record { load = load; rows = extract.now.staged.now.rows })) }
    {
        let rows = self.delta_rows(load, extract, catalog)?;
        Ok(rows)
    }

    // What the extract's hash keys add.
    fn delta_rows(
        &self,
        load: Stamp,
        extract: &HashedExtract<'_>,
        catalog: &Catalog,
    ) -> Result<List<StatusRow>, Memory>
        requires feed { extract.now.staged.now.feed < length catalog.now.feeds }
        requires not_later { IsTrue (none_later status_place self.now.rows load) }
        ensures value { IfOk result (λ rows. rows ≡ keys_delta (source catalog.now extract.now.staged.now.feed) self.now.rows load extract.now.keys) }
        ensures order { IsStrictlySortedBy status_order self.now.rows }
    {
        if self.has_load(load) {
            return Ok(List::new(self.allocator()));
        }
        let feed = catalog.feed(extract.staged.feed);
        let source = record_source(self.allocator(), feed)?;
        let rows = self.changes(load, &source, &extract.keys)?;
        Ok(rows)
    }
}
