ghost use Rattle.std.specs.Prelude.{◌≡◌, ◌≤◌, ◌<◌, ◌++◌, ◌&&◌, All, IfOk, IsTrue, OnOk, find, length, map, nat_le, option_map, reverse};
ghost use Rattle.std.specs.List.{filter_map, list_all};
ghost use Rattle.std.specs.List.Sorted.{IsStrictlySortedBy};
ghost use Rattle.std.specs.Str.{bytes_eq};
ghost use Rattle.dv_text.specs.Keys.{hashes_of};
ghost use Rattle.dv_text.specs.Orders.{row_cmp};
ghost use Rattle.dv_digest.specs.Fits as fits;
ghost use Rattle.dv_digest.specs.HashedExtracts.{HasKeys};
ghost use Rattle.dv_catalog.specs.Feeds.{source};
ghost use Rattle.dv_index.specs.Places.{has_load, none_later};
ghost use Rattle.dv_records.specs.MultiPlaces.{multi_place};
ghost use Rattle.dv_records.specs.Reconstruction.{all_valid_at, loaded_with};
ghost use Rattle.dv_sat.specs.MultiRows.{multi_change, multi_delta, multi_order, IsMultiBatchAfter};
ghost use Rattle.dv_sat.specs.MultiRows as spec;

use crate::multi_changes::change;
use crate::runs::rows_with;
use crate::sat_changes::add;
use dv_catalog::{Catalog, record_source};
use dv_digest::{HashedExtract, Room};
use dv_index::IndexedRows;
use dv_records::{MultiRow, sorted_firsts};
use dv_text::{Digest, KeyDigest, List, Memory, NRow, Stamp, Text};
use std::alloc::Global;
use std::marker::Model;

/// The multi-active satellite of a feed: the rows that described each parent, one for each sub, and from when on
/// (Linstedt and Olschimke 2015, chapter 5, on multi-active satellites). Contracts see it as its rows, and for how
/// many more there is room. The rows ascend by load date, then by parent, then by sub.
#[derive(Drop)]
pub struct MultiTable {
    indexed: IndexedRows<MultiRow>,
}

impl Model for MultiTable {
    ghost use Rattle.std.specs.List.Sorted.{IsStrictlySortedBy};
    ghost use Rattle.dv_index.specs.Places.{Indexed};
    ghost use Rattle.dv_records.specs.declared.raw_rows.MultiRow.{MultiRow};
    ghost use Rattle.dv_sat.specs.MultiRows.{multi_order};

    ghost Value = { Indexed MultiRow };

    ghost view = { λ table. table.indexed };

    ghost invariant = { λ table. IsStrictlySortedBy multi_order table.indexed.rows };
}

impl MultiTable {
    /// The table of these rows. Condition: they ascend strictly by load date, then by parent, then by sub.
    pub fn from_rows(alloc: Global, rows: List<MultiRow>) -> Result<MultiTable, Memory>
        requires { IsStrictlySortedBy multi_order rows }
        ensures { IfOk result (λ table. table.rows ≡ rows) }
    {
        let indexed = IndexedRows::from_rows(alloc, rows)?;
        Ok(MultiTable { indexed })
    }

    /// The table of rows that have an index. Condition: they ascend strictly by load date, then by parent,
    /// then by sub. Takes no
    /// memory.
    pub fn from_indexed(indexed: IndexedRows<MultiRow>) -> MultiTable
        requires { IsStrictlySortedBy multi_order indexed.rows }
        ensures { result ≡ indexed }
    {
        MultiTable { indexed }
    }

    /// The rows, in their order. Takes no memory.
    pub fn rows(&self) -> &[MultiRow]
        ensures value { result.now ≡ self.now.rows }
        ensures kept { IsStrictlySortedBy multi_order self.now.rows }
    {
        self.indexed.rows()
    }

    /// The rows themselves. Takes no memory.
    pub fn into_rows(self) -> List<MultiRow>
        ensures value { result ≡ self.rows }
        ensures kept { IsStrictlySortedBy multi_order self.rows }
    {
        self.indexed.into_rows()
    }

    /// The allocator that the table keeps: there is one, so no clause says which.
    pub(crate) fn allocator(&self) -> Global {
        self.indexed.allocator()
    }

    /// Does nothing: a call tells a proof that the rows ascend.
    pub(crate) fn note_order(&self)
        ensures { IsStrictlySortedBy multi_order self.now.rows }
    {
        let _rows = self.indexed.rows();
    }

    /// Makes room for so many more rows. The rows stay as they are, also for want of memory.
    pub fn reserve(&mut self, more: u64) -> Result<(), Memory>
        ensures rows { self.new.rows ≡ self.old.rows }
        ensures room { OnOk result (more ≤ self.new.spare) }
    {
        self.indexed.reserve(more)
    }

    /// Appends rows. Conditions: there is room for them, and all rows ascend strictly by load date, then by
    /// parent, then by sub. Takes no memory.
    pub fn apply(&mut self, rows: List<MultiRow>)
        requires room { length rows ≤ self.old.spare }
        requires order { IsStrictlySortedBy multi_order (self.old.rows ++ rows) }
        ensures { self.new.rows ≡ self.old.rows ++ rows }
    {
        self.indexed.apply(rows);
    }

    /// The rows that are valid for a parent at a date, by sub: those with the load date of its last row that is not
    /// later; none where there is no such row. Takes no memory.
    pub fn at(&self, parent: &Digest, date: Stamp) -> &[MultiRow]
        ensures { result.now ≡ all_valid_at self.now.rows parent.now date }
    {
        self.loaded_with(parent, self.indexed.latest(parent, date))
    }

    // Of each of these parents the last row that is not later than a date, in their order.
    fn each_last(&self, parents: &[Digest], date: Stamp) -> Result<Vec<Option<&MultiRow>>, Memory>
        ensures { IfOk result (λ found. map (option_map (λ row. row.now)) found.items ≡ map (λ parent. find (λ row. bytes_eq row.parent parent && nat_le row.load date) (reverse self.now.rows)) parents.now) }
    {
        self.indexed.latest_of(parents, date)
    }

    // The rows of a parent with the load date of one of them; none where there is none.
    fn loaded_with(&self, parent: &Digest, last: Option<&MultiRow>) -> &[MultiRow]
        ensures { result.now ≡ loaded_with self.now.rows parent.now (option_map (λ row. row.now) last.entry) }
    {
        match last {
            Some(last) => rows_with(self.indexed.rows(), parent, last.load),
            None => &[],
        }
    }

    // Whether the last row has a load date: no row has it where that one hasn't.
    fn has_load(&self, load: Stamp) -> bool
        requires { IsTrue (none_later multi_place self.now.rows load) }
        ensures value { result ≡ has_load multi_place self.now.rows load }
        ensures ascending { IsStrictlySortedBy multi_order self.now.rows }
    {
        match self.indexed.rows().last() {
            Some(row) => row.load == load,
            None => false,
        }
    }

    // The rows that an extract's rows add, in the order of these.
    fn changes<H: KeyDigest>(
        &self,
        load: Stamp,
        source: &Text,
        rows: &[NRow],
        keys: &[Digest],
        digest: &H,
    ) -> Result<Vec<MultiRow>, Memory>
        requires ascending { IsStrictlySortedBy row_cmp rows.now }
        requires keys { keys.now ≡ map (λ row. (hashes_of H.function).hash row.refs) rows.now }
        requires attrs_fit { IsTrue (list_all (λ row. fits.attrs_fit row.attrs) rows.now) }
        ensures { IfOk result (λ made. made.items ≡ filter_map (multi_change (hashes_of H.function) source.now self.now.rows load rows.now) rows.now) }
    {
        let found = self.each_last(keys, load)?;
        let mut room = Room::new(self.allocator())?;
        let mut made = Vec::new(self.allocator());
        for ((row, key), last) in rows.iter().zip(keys).zip(found.iter()) {
            let valid = self.loaded_with(key, *last);
            let change = change(valid, load, source, rows, row, key, digest, &mut room)?;
            add(&mut made, change)?;
        }
        Ok(made)
    }

    /// The rows that an extract adds, by hash key, then by sub: all rows of each reference list whose rows are other
    /// ones than those that are valid for its parent at the load date; none where the table has a row of this load
    /// date. They have the load date, and the table's rows followed by them ascend. Over the table of a feed's
    /// extracts before it, they are the extract's batch, where the extracts have one row for each reference list and
    /// sub, and no two of these lists have one hash key. Conditions: the feed is in the mapping, the extract has its
    /// hash keys, its rows ascend, the attributes are no longer than those of staged rows, and no row of the table is
    /// later than the load date.
    pub fn delta<H: KeyDigest>(
        &self,
        load: Stamp,
        extract: &HashedExtract<'_>,
        catalog: &Catalog,
        digest: &H,
    ) -> Result<List<MultiRow>, Memory>
        requires feed { extract.now.staged.now.feed < length catalog.now.feeds }
        requires keys { HasKeys (hashes_of H.function) extract.now }
        requires ascending { IsStrictlySortedBy row_cmp extract.now.staged.now.rows }
        requires attrs_fit { IsTrue (list_all (λ row. fits.attrs_fit row.attrs) extract.now.staged.now.rows) }
        requires not_later { IsTrue (none_later multi_place self.now.rows load) }
        ensures delta { IfOk result (λ rows. rows ≡ multi_delta (hashes_of H.function) (source catalog.now extract.now.staged.now.feed) self.now.rows load extract.now.staged.now.rows) }
        ensures stamped { IfOk result (All (λ row. row.load ≡ load)) }
        ensures follows { IfOk result (λ rows. IsStrictlySortedBy multi_order (self.now.rows ++ rows)) }
        ensures batch { IfOk result (IsMultiBatchAfter (hashes_of H.function) (source catalog.now extract.now.staged.now.feed) self.now.rows (record { load = load; rows = extract.now.staged.now.rows })) }
    {
        let rows = self.delta_rows(load, extract, catalog, digest)?;
        Ok(rows)
    }

    fn delta_rows<H: KeyDigest>(
        &self,
        load: Stamp,
        extract: &HashedExtract<'_>,
        catalog: &Catalog,
        digest: &H,
    ) -> Result<List<MultiRow>, Memory>
        requires feed { extract.now.staged.now.feed < length catalog.now.feeds }
        requires keys { HasKeys (hashes_of H.function) extract.now }
        requires ascending { IsStrictlySortedBy row_cmp extract.now.staged.now.rows }
        requires attrs_fit { IsTrue (list_all (λ row. fits.attrs_fit row.attrs) extract.now.staged.now.rows) }
        requires not_later { IsTrue (none_later multi_place self.now.rows load) }
        ensures value { IfOk result (λ rows. rows ≡ multi_delta (hashes_of H.function) (source catalog.now extract.now.staged.now.feed) self.now.rows load extract.now.staged.now.rows) }
        ensures order { IsStrictlySortedBy multi_order self.now.rows }
    {
        if self.has_load(load) {
            return Ok(List::new(self.allocator()));
        }
        let staged = extract.staged;
        let source = record_source(self.allocator(), catalog.feed(staged.feed))?;
        let rows = staged.rows.items();
        let changes = self.changes(load, &source, rows, extract.keys.items(), digest)?;
        let rows = sorted_firsts(changes)?;
        Ok(rows)
    }
}
