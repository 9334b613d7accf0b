ghost use Rattle.std.specs.Prelude.{◌≡◌, ◌≤◌, ◌<◌, ◌++◌, All, IfOk, IsTrue, OnOk, length, map, option_map};
ghost use Rattle.std.specs.List.{filter_map, list_all};
ghost use Rattle.std.specs.List.Sorted.{IsStrictlySortedBy};
ghost use Rattle.dv_text.specs.Keys.{hashes_of};
ghost use Rattle.dv_digest.specs.Fits as fits;
ghost use Rattle.dv_digest.specs.HashedExtracts.{HasKeys};
ghost use Rattle.dv_catalog.specs.Feeds.{source};
ghost use Rattle.dv_index.specs.Places.{has_load, none_later};
ghost use Rattle.dv_records.specs.Reconstruction.{valid_at};
ghost use Rattle.dv_records.specs.SatPlaces.{sat_place};
ghost use Rattle.dv_sat.specs.SatRows.{current_of, sat_change, sat_delta, sat_order, IsSatBatchAfter};
ghost use Rattle.dv_sat.specs.SatRows as spec;

use crate::sat_changes::{add, change};
use dv_catalog::{Catalog, record_source};
use dv_digest::{HashedExtract, Room};
use dv_index::IndexedRows;
use dv_records::{SatRow, sorted_firsts};
use dv_text::{Digest, KeyDigest, List, Memory, NRow, Stamp, Text};
use std::alloc::Global;
use std::marker::Model;

/// The satellite of a feed: what described each parent, and from when on (Linstedt and Olschimke 2015,
/// chapter 4, on satellites). Contracts see it as its rows, and for how many more there is room. The rows
/// ascend by load date, then by parent.
#[derive(Drop)]
pub struct SatTable {
    indexed: IndexedRows<SatRow>,
}

impl Model for SatTable {
    ghost use Rattle.std.specs.List.Sorted.{IsStrictlySortedBy};
    ghost use Rattle.dv_index.specs.Places.{Indexed};
    ghost use Rattle.dv_records.specs.declared.raw_rows.SatRow.{SatRow};
    ghost use Rattle.dv_sat.specs.SatRows.{sat_order};

    ghost Value = { Indexed SatRow };

    ghost view = { λ table. table.indexed };

    ghost invariant = { λ table. IsStrictlySortedBy sat_order table.indexed.rows };
}

impl SatTable {
    /// The table of these rows. Condition: they ascend strictly by load date, then by parent.
    pub fn from_rows(alloc: Global, rows: List<SatRow>) -> Result<SatTable, Memory>
        requires { IsStrictlySortedBy sat_order rows }
        ensures { IfOk result (λ table. table.rows ≡ rows) }
    {
        let indexed = IndexedRows::from_rows(alloc, rows)?;
        Ok(SatTable { indexed })
    }

    /// The table of rows that have an index. Condition: they ascend strictly by load date, then by parent. Takes no
    /// memory.
    pub fn from_indexed(indexed: IndexedRows<SatRow>) -> SatTable
        requires { IsStrictlySortedBy sat_order indexed.rows }
        ensures { result ≡ indexed }
    {
        SatTable { indexed }
    }

    /// The rows, in their order. Takes no memory.
    pub fn rows(&self) -> &[SatRow]
        ensures value { result.now ≡ self.now.rows }
        ensures kept { IsStrictlySortedBy sat_order self.now.rows }
    {
        self.indexed.rows()
    }

    /// The rows themselves. Takes no memory.
    pub fn into_rows(self) -> List<SatRow>
        ensures value { result ≡ self.rows }
        ensures kept { IsStrictlySortedBy sat_order self.rows }
    {
        self.indexed.into_rows()
    }

    /// The allocator that the table keeps: there is one, so no clause says which.
    pub(crate) fn allocator(&self) -> Global {
        self.indexed.allocator()
    }

    /// Does nothing: a call tells a proof that the rows ascend.
    pub(crate) fn note_order(&self)
        ensures { IsStrictlySortedBy sat_order self.now.rows }
    {
        let _rows = self.indexed.rows();
    }

    /// Makes room for so many more rows. The rows stay as they are, also for want of memory.
    pub fn reserve(&mut self, more: u64) -> Result<(), Memory>
        ensures rows { self.new.rows ≡ self.old.rows }
        ensures room { OnOk result (more ≤ self.new.spare) }
    {
        self.indexed.reserve(more)
    }

    /// Appends rows. Conditions: there is room for them, and all rows ascend strictly by load date, then by
    /// parent. Takes no memory.
    pub fn apply(&mut self, rows: List<SatRow>)
        requires room { length rows ≤ self.old.spare }
        requires order { IsStrictlySortedBy sat_order (self.old.rows ++ rows) }
        ensures { self.new.rows ≡ self.old.rows ++ rows }
    {
        self.indexed.apply(rows);
    }

    /// The row that is valid for a parent at a date: its last row that is not later; none where there is no
    /// such row. Takes no memory.
    pub fn at(&self, parent: &Digest, date: Stamp) -> Option<&SatRow>
        ensures { option_map (λ row. row.now) result ≡ valid_at self.now.rows parent.now date }
    {
        self.indexed.latest(parent, date)
    }

    /// The last row of a parent, whatever its date; none where it has none. Takes no memory.
    pub fn current(&self, parent: &Digest) -> Option<&SatRow>
        ensures { option_map (λ row. row.now) result ≡ current_of self.now.rows parent.now }
    {
        let last = self.indexed.rows().last()?;
        self.indexed.latest(parent, last.load)
    }

    /// Of each of these parents the row that is valid for it at a date, in their order; none where there is no such
    /// row. One walk over the index.
    pub fn each_at(&self, parents: &[Digest], date: Stamp) -> Result<Vec<Option<&SatRow>>, Memory>
        ensures { IfOk result (λ found. map (option_map (λ row. row.now)) found.items ≡ map (λ parent. valid_at self.now.rows parent date) parents.now) }
    {
        self.indexed.latest_of(parents, date)
    }

    // Whether the last row has a load date: no row has it where that one hasn't.
    fn has_load(&self, load: Stamp) -> bool
        requires { IsTrue (none_later sat_place self.now.rows load) }
        ensures value { result ≡ has_load sat_place self.now.rows load }
        ensures ascending { IsStrictlySortedBy sat_order self.now.rows }
    {
        match self.indexed.rows().last() {
            Some(row) => row.load == load,
            None => false,
        }
    }

    // The rows that an extract's rows add, in the order of these.
    fn changes<H: KeyDigest>(
        &self,
        load: Stamp,
        source: &Text,
        rows: &[NRow],
        keys: &[Digest],
        digest: &H,
    ) -> Result<Vec<SatRow>, Memory>
        requires keys { keys.now ≡ map (λ row. (hashes_of H.function).hash row.refs) rows.now }
        requires attrs_fit { IsTrue (list_all (λ row. fits.attrs_fit row.attrs) rows.now) }
        ensures { IfOk result (λ made. made.items ≡ filter_map (sat_change (hashes_of H.function) source.now self.now.rows load) rows.now) }
    {
        let found = self.each_at(keys, load)?;
        let mut room = Room::new(self.allocator())?;
        let mut made = Vec::new(self.allocator());
        for ((row, key), valid) in rows.iter().zip(keys).zip(found.iter()) {
            let change = change(*valid, load, source, row, key, digest, &mut room)?;
            add(&mut made, change)?;
        }
        Ok(made)
    }

    /// The rows that an extract adds, by hash key: one for each row whose attributes are other ones than those
    /// that are valid for its parent at the load date; none where the table has a row of this load date. They
    /// have the load date, and the table's rows followed by them ascend. Over the table of a feed's extracts
    /// before it, they are the extract's batch, where the extracts have one row without a sub for each reference
    /// list, and no two of these lists have one hash key. Conditions: the feed is in the mapping, the extract has
    /// its hash keys, the attributes are no longer than those of staged rows, and no row of the table is later
    /// than the load date.
    pub fn delta<H: KeyDigest>(
        &self,
        load: Stamp,
        extract: &HashedExtract<'_>,
        catalog: &Catalog,
        digest: &H,
    ) -> Result<List<SatRow>, Memory>
        requires feed { extract.now.staged.now.feed < length catalog.now.feeds }
        requires keys { HasKeys (hashes_of H.function) extract.now }
        requires attrs_fit { IsTrue (list_all (λ row. fits.attrs_fit row.attrs) extract.now.staged.now.rows) }
        requires not_later { IsTrue (none_later sat_place self.now.rows load) }
        ensures delta { IfOk result (λ rows. rows ≡ sat_delta (hashes_of H.function) (source catalog.now extract.now.staged.now.feed) self.now.rows load extract.now.staged.now.rows) }
        ensures stamped { IfOk result (All (λ row. row.load ≡ load)) }
        ensures follows { IfOk result (λ rows. IsStrictlySortedBy sat_order (self.now.rows ++ rows)) }
        ensures batch { IfOk result (IsSatBatchAfter (hashes_of H.function) (source catalog.now extract.now.staged.now.feed) self.now.rows (record { load = load; rows = extract.now.staged.now.rows })) }
    {
        let rows = self.delta_rows(load, extract, catalog, digest)?;
        Ok(rows)
    }

    fn delta_rows<H: KeyDigest>(
        &self,
        load: Stamp,
        extract: &HashedExtract<'_>,
        catalog: &Catalog,
        digest: &H,
    ) -> Result<List<SatRow>, Memory>
        requires feed { extract.now.staged.now.feed < length catalog.now.feeds }
        requires keys { HasKeys (hashes_of H.function) extract.now }
        requires attrs_fit { IsTrue (list_all (λ row. fits.attrs_fit row.attrs) extract.now.staged.now.rows) }
        requires not_later { IsTrue (none_later sat_place self.now.rows load) }
        ensures value { IfOk result (λ rows. rows ≡ sat_delta (hashes_of H.function) (source catalog.now extract.now.staged.now.feed) self.now.rows load extract.now.staged.now.rows) }
        ensures order { IsStrictlySortedBy sat_order self.now.rows }
    {
        if self.has_load(load) {
            return Ok(List::new(self.allocator()));
        }
        let staged = extract.staged;
        let source = record_source(self.allocator(), catalog.feed(staged.feed))?;
        let rows = staged.rows.items();
        let changes = self.changes(load, &source, rows, extract.keys.items(), digest)?;
        let rows = sorted_firsts(changes)?;
        Ok(rows)
    }
}
