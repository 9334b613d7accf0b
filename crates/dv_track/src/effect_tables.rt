ghost use Rattle.std.specs.Prelude.{◌≡◌, ◌≤◌, ◌<◌, ◌++◌, All, IfOk, IsTrue, OnOk, length};
ghost use Rattle.std.specs.List.Sorted.{IsStrictlySortedBy};
ghost use Rattle.dv_text.specs.Keys.{Hashes};
ghost use Rattle.dv_digest.specs.HashedExtracts.{HasKeys};
ghost use Rattle.dv_catalog.specs.Feeds.{source};
ghost use Rattle.dv_index.specs.Places.{has_load, none_later};
ghost use Rattle.dv_records.specs.Batches.{digest_cmp};
ghost use Rattle.dv_records.specs.EffectPeriods.{effect_periods, in_effect_since};
ghost use Rattle.dv_records.specs.EffectPlaces.{effect_place};
ghost use Rattle.dv_records.specs.History.{all_refs};
ghost use Rattle.dv_track.specs.EffectRows.{effect_changes, effect_delta, effect_order, effect_turn, effect_turns, keys_delta, IsEffectBatchAfter};
ghost use Rattle.dv_track.specs.EffectRows as spec;

use crate::changes::add;
use crate::effect_changes::{effect_row, opened};
use crate::effect_periods::told;
use crate::heads::{least, left};
use crate::tracked_rows::TrackedRows;
use dv_catalog::{Catalog, record_source};
use dv_digest::HashedExtract;
use dv_index::IndexedRows;
use dv_records::{EffectRow, Period, sorted_firsts};
use dv_text::{Digest, Duplicate, List, Memory, Stamp, Text, sorted_list};
use std::alloc::Global;
use std::marker::Model;

/// The effectivity satellite of a feed: from when to when each reference list was delivered without a break
/// (Linstedt and Olschimke 2015, chapter 5, on effectivity satellites). Contracts see it as its rows, and for how
/// many more there is room. The rows ascend by load date, then by parent.
#[derive(Drop)]
pub struct EffectTable {
    tracked: TrackedRows<EffectRow>,
}

impl Model for EffectTable {
    ghost use Rattle.std.specs.List.Sorted.{IsStrictlySortedBy};
    ghost use Rattle.dv_index.specs.Places.{Indexed};
    ghost use Rattle.dv_records.specs.declared.raw_rows.EffectRow.{EffectRow};
    ghost use Rattle.dv_track.specs.EffectRows.{effect_order};

    ghost Value = { Indexed EffectRow };

    ghost view = { λ table. table.tracked };

    ghost invariant = { λ table. IsStrictlySortedBy effect_order table.tracked.rows };
}

impl EffectTable {
    /// The table of these rows. Condition: they ascend strictly by load date, then by parent.
    pub fn from_rows(alloc: Global, rows: List<EffectRow>) -> Result<EffectTable, Memory>
        requires { IsStrictlySortedBy effect_order rows }
        ensures { IfOk result (λ table. table.rows ≡ rows) }
    {
        let tracked = TrackedRows::from_rows(alloc, rows)?;
        Ok(EffectTable { tracked })
    }

    /// The table of rows that have an index. Condition: they ascend strictly by load date, then by parent.
    pub fn from_indexed(indexed: IndexedRows<EffectRow>) -> Result<EffectTable, Memory>
        requires { IsStrictlySortedBy effect_order indexed.rows }
        ensures { IfOk result (λ table. table.rows ≡ indexed.rows) }
    {
        let tracked = TrackedRows::from_indexed(indexed)?;
        Ok(EffectTable { tracked })
    }

    /// The rows, in their order. Takes no memory.
    pub fn rows(&self) -> &[EffectRow]
        ensures value { result.now ≡ self.now.rows }
        ensures kept { IsStrictlySortedBy effect_order self.now.rows }
    {
        self.tracked.rows()
    }

    /// The rows themselves. Takes no memory.
    pub fn into_rows(self) -> List<EffectRow>
        ensures value { result ≡ self.rows }
        ensures kept { IsStrictlySortedBy effect_order self.rows }
    {
        self.tracked.into_rows()
    }

    /// The allocator that the table keeps: there is one, so no clause says which.
    pub(crate) fn allocator(&self) -> Global {
        self.tracked.allocator()
    }

    /// Does nothing: a call tells a proof that the rows ascend.
    pub(crate) fn note_order(&self)
        ensures { IsStrictlySortedBy effect_order self.now.rows }
    {
        let _rows = self.tracked.rows();
    }

    /// Makes room for so many more rows. The rows stay as they are, also for want of memory.
    pub fn reserve(&mut self, more: u64) -> Result<(), Memory>
        ensures rows { self.new.rows ≡ self.old.rows }
        ensures room { OnOk result (more ≤ self.new.spare) }
    {
        self.tracked.reserve(more)
    }

    /// Appends rows. Conditions: there is room for them, and all rows ascend strictly by load date, then by
    /// parent. Takes no memory.
    pub fn apply(&mut self, rows: List<EffectRow>)
        requires room { length rows ≤ self.old.spare }
        requires order { IsStrictlySortedBy effect_order (self.old.rows ++ rows) }
        ensures { self.new.rows ≡ self.old.rows ++ rows }
    {
        self.tracked.apply(rows);
    }

    // Since when a parent is in effect at a date. Takes no memory.
    fn since(&self, parent: &Digest, date: Stamp) -> Option<Stamp>
        ensures { result ≡ in_effect_since self.now.rows parent.now date }
    {
        opened(self.tracked.latest(parent, date)?)
    }

    // Whether the last row has a load date: no row has it where that one hasn't.
    fn has_load(&self, load: Stamp) -> bool
        requires { IsTrue (none_later effect_place self.now.rows load) }
        ensures value { result ≡ has_load effect_place self.now.rows load }
        ensures ascending { IsStrictlySortedBy effect_order self.now.rows }
    {
        match self.tracked.rows().last() {
            Some(row) => row.load == load,
            None => false,
        }
    }

    // The row of a parent that is in effect at a date or isn't, and is in the extract or isn't.
    fn change(
        &self,
        parent: &Digest,
        load: Stamp,
        source: &Text,
        was: bool,
        now: bool,
    ) -> Result<Option<EffectRow>, Memory>
        ensures { IfOk result (λ row. row ≡ effect_turn source.now load parent.now (in_effect_since self.now.rows parent.now load) was now) }
    {
        match (was, now) {
            (true, false) => effect_row(parent, load, source, self.since(parent, load), false),
            (false, true) => effect_row(parent, load, source, None, true),
            (true, true) | (false, false) => Ok(None),
        }
    }

    // The rows of the parents with which a run begins or ends, where those that are in effect ascend, and the keys of
    // the extract. One walk over both.
    fn changes_between(
        &self,
        load: Stamp,
        source: &Text,
        was: &[Digest],
        now: &[Digest],
    ) -> Result<List<EffectRow>, Memory>
        requires was { IsStrictlySortedBy digest_cmp was.now }
        requires now { IsStrictlySortedBy digest_cmp now.now }
        ensures { IfOk result (λ made. made ≡ effect_turns source.now self.now.rows load was.now now.now) }
    {
        let (mut was, mut now) = (was, now);
        let mut made = List::new(self.allocator());
        while let Some(head) = least(was, now) {
            let row = self.change(&head.parent, load, source, head.was, head.now)?;
            add(&mut made, row)?;
            was = left(was, head.was);
            now = left(now, head.now);
        }
        Ok(made)
    }

    // The rows of the parents with which a run begins or ends, without a walk over the table.
    fn changes(
        &self,
        load: Stamp,
        source: &Text,
        keys: &List<Digest>,
    ) -> Result<List<EffectRow>, Memory>
        requires { IsTrue (none_later effect_place self.now.rows load) }
        ensures { IfOk result (λ made. made ≡ effect_changes source.now self.now.rows load keys.now) }
    {
        let keys = keys.copy()?;
        let now = sorted_list(keys);
        let was = self.tracked.present();
        let made = self.changes_between(load, source, was, now.items())?;
        Ok(made)
    }

    /// The runs that begin not later than a date, by parent, then by begin; the end of one that ends later is open.
    /// They are read from the rows that are not later: the closing row of a run where it is there, else the opening
    /// one. A walk over the rows and a sort.
    pub fn periods(&self, date: Stamp) -> Result<List<Period>, Memory>
        ensures { IfOk result (λ periods. periods ≡ effect_periods self.now.rows date) }
    {
        let mut told = told(self.allocator(), self.tracked.rows(), date)?;
        told.reverse();
        let periods = sorted_firsts(told)?;
        Ok(periods)
    }

    /// The rows that an extract adds: by hash key, one for each parent with which a run begins or ends; none where
    /// the table has a row of this load date. They have the load date, and the table's rows followed by them
    /// ascend. Over the table of a feed's extracts before it, they are the extract's batch, where no two
    /// reference lists that the extracts deliver have one hash key. Conditions: the feed is in the mapping, and
    /// no row of the table is later than the load date.
    pub fn delta(
        &self,
        load: Stamp,
        extract: &HashedExtract<'_>,
        catalog: &Catalog,
    ) -> Result<List<EffectRow>, Memory>
        requires feed { extract.now.staged.now.feed < length catalog.now.feeds }
        requires not_later { IsTrue (none_later effect_place self.now.rows load) }
        ensures delta { (hashes : Hashes) → HasKeys hashes extract.now → IfOk result (λ rows. rows ≡ effect_delta hashes (source catalog.now extract.now.staged.now.feed) self.now.rows load (all_refs extract.now.staged.now.rows)) }
        ensures stamped { IfOk result (All (λ row. row.load ≡ load)) }
        ensures follows { IfOk result (λ rows. IsStrictlySortedBy effect_order (self.now.rows ++ rows)) }
        ensures batch { (hashes : Hashes) → HasKeys hashes extract.now → IfOk result (IsEffectBatchAfter hashes (source catalog.now extract.now.staged.now.feed) self.now.rows (record { load = load; rows = extract.now.staged.now.rows })) }
    {
        let rows = self.delta_rows(load, extract, catalog)?;
        Ok(rows)
    }

    // What the extract's hash keys add.
    fn delta_rows(
        &self,
        load: Stamp,
        extract: &HashedExtract<'_>,
        catalog: &Catalog,
    ) -> Result<List<EffectRow>, Memory>
        requires feed { extract.now.staged.now.feed < length catalog.now.feeds }
        requires not_later { IsTrue (none_later effect_place self.now.rows load) }
        ensures value { IfOk result (λ rows. rows ≡ keys_delta (source catalog.now extract.now.staged.now.feed) self.now.rows load extract.now.keys) }
        ensures order { IsStrictlySortedBy effect_order self.now.rows }
    {
        if self.has_load(load) {
            return Ok(List::new(self.allocator()));
        }
        let feed = catalog.feed(extract.staged.feed);
        let source = record_source(self.allocator(), feed)?;
        let rows = self.changes(load, &source, &extract.keys)?;
        Ok(rows)
    }
}
