ghost use Rattle.std.specs.Prelude.{◌≡◌, ◌≤◌, ◌++◌, [], ℕ, List as list_of, None, IfOk, IsTrue, OnOk, length, map, nat_le, option_map};
ghost use Rattle.std.specs.List.{list_all};
ghost use Rattle.dv_text.specs.Keys.{hashes_of};
ghost use Rattle.dv_text.specs.declared.rows.Window.{Window};
ghost use Rattle.dv_records.specs.Deltas.{Answers, AreHashed, HasNoClash, IfCollides, IsLeastClash, delivered};
ghost use Rattle.dv_hub_link.specs.HubDeltas.{AnswersBatch, AreHubItems, IsHeld, hub_delta, hub_hashed};
ghost use Rattle.dv_hub_link.specs.HubRows as spec;
ghost use Rattle.dv_hub_link.specs.HubRows.{are_hub_rows};

use crate::additions::missing_for;
use crate::deltas::lists_for;
use crate::hub_rows::{OwnKeys, hub_rows};
use crate::key_rows::KeyRows;
use dv_catalog::Catalog;
use dv_index::IndexedRows;
use dv_records::{DeltaFault, HashedDelivery, HubRow};
use dv_text::{Digest, Key, KeyDigest, List, Memory, Stamp};
use std::alloc::Global;
use std::marker::Model;

/// The table of a hub (Linstedt and Olschimke 2015, chapter 4, on hubs). Contracts see it as its rows, in the
/// order in which they were loaded, and for how many more there is room. No two rows have one hash key, and
/// their load dates do not fall.
#[derive(Drop)]
pub struct HubTable {
    held: KeyRows<HubRow>,
}

impl Model for HubTable {
    ghost use Rattle.dv_records.specs.declared.raw_rows.HubRow.{HubRow};
    ghost use Rattle.dv_index.specs.Places.{Indexed};

    ghost Value = { Indexed HubRow };

    ghost view = { λ t. t.held };
}

impl HubTable {
    /// The table of these rows. Condition: no two have one digest, and their load dates do not fall.
    pub fn from_rows(alloc: Global, rows: List<HubRow>) -> Result<HubTable, Memory>
        requires { IsTrue (are_hub_rows rows) }
        ensures { IfOk result (λ table. table.rows ≡ rows) }
    {
        let held = KeyRows::from_rows(alloc, rows)?;
        Ok(HubTable { held })
    }

    /// The table of rows that have an index. Condition: no two have one digest, and their load dates do not fall.
    /// Takes no memory.
    pub fn from_indexed(indexed: IndexedRows<HubRow>) -> HubTable
        requires { IsTrue (are_hub_rows indexed.rows) }
        ensures { result ≡ indexed }
    {
        let held = KeyRows::from_indexed(indexed);
        HubTable { held }
    }

    /// The rows, in the order in which they were loaded. Takes no memory.
    pub fn rows(&self) -> &[HubRow]
        ensures value { result.now ≡ self.now.rows }
        ensures kept { IsTrue (are_hub_rows self.now.rows) }
    {
        self.held.rows()
    }

    /// The rows themselves. Takes no memory.
    pub fn into_rows(self) -> List<HubRow>
        ensures value { result ≡ self.rows }
        ensures kept { IsTrue (are_hub_rows self.rows) }
    {
        self.held.into_rows()
    }

    /// Whether a row has this digest. Takes no memory.
    pub fn has(&self, d: &Digest) -> bool
        ensures { result ≡ spec.has_digest d.now self.now.rows }
    {
        self.held.has(d)
    }

    /// The business key of the row with this digest; none exactly where no row has it. Takes no memory.
    pub fn key(&self, d: &Digest) -> Option<&Key>
        ensures { option_map (λ key. key.now) result ≡ spec.key_with d.now self.now.rows }
    {
        let row = self.held.row(d)?;
        Some(&row.key)
    }

    /// Of each of these digests its row, in their order; none exactly where no row has it. One walk over the index.
    pub fn rows_of(&self, digests: &[Digest]) -> Result<Vec<Option<&HubRow>>, Memory>
        ensures { IfOk result (λ found. map (option_map (λ row. row.now)) found.items ≡ map (λ d. spec.row_with d self.now.rows) digests.now) }
    {
        self.held.rows_of(digests)
    }

    /// Makes room for so many more rows. The rows stay as they are, also for want of memory.
    pub fn reserve(&mut self, more: u64) -> Result<(), Memory>
        ensures rows { self.new.rows ≡ self.old.rows }
        ensures room { OnOk result (more ≤ self.new.spare) }
    {
        self.held.reserve(more)
    }

    /// Appends rows. Conditions: there is room for them; no two of all rows have one digest, and the load
    /// dates of all rows do not fall. Takes no memory.
    pub fn apply(&mut self, rows: List<HubRow>)
        requires room { length rows ≤ self.old.spare }
        requires whole { IsTrue (are_hub_rows (self.old.rows ++ rows)) }
        ensures { self.new.rows ≡ self.old.rows ++ rows }
    {
        self.held.apply(rows);
    }

    /// The rows that a window adds to the hub: of each delivered key that is not missing, and whose hash key no
    /// row has, one row, by hash key. Conditions: no row is later than the load date; the items are deliveries
    /// to one hub of the catalog, by its feeds, no two of one key; a key has the hub's number of parts, each of
    /// at most 4,096 bytes; an item's digest is the hash key of its key. Where two different keys among those of
    /// the rows and the items and the missing key have one hash key, the error is the least such pair. Want of
    /// memory is `DeltaFault::Memory`.
    pub fn delta<H: KeyDigest>(
        &self,
        load: Stamp,
        items: &List<HashedDelivery<'_>>,
        catalog: &Catalog,
        digest: &H,
    ) -> Result<List<HubRow>, DeltaFault>
        requires dated { IsTrue (list_all (λ row. nat_le row.load load) self.now.rows) }
        requires items { AreHubItems catalog.now (delivered items.now) }
        requires hashed { AreHashed (hashes_of H.function) items.now }
        ensures apart { IfOk result (λ made. HasNoClash (hub_hashed catalog.now (hashes_of H.function) self.now.rows (delivered items.now))) }
        ensures rows { IfOk result (λ made. made ≡ hub_delta catalog.now (hashes_of H.function) load self.now.rows (delivered items.now)) }
        ensures collision { IfCollides result (IsLeastClash (hub_hashed catalog.now (hashes_of H.function) self.now.rows (delivered items.now))) }
        ensures whole { IfOk result (λ made. IsTrue (are_hub_rows (self.now.rows ++ made))) }
        ensures batch { AnswersBatch catalog.now (hashes_of H.function) self.now.rows load (delivered items.now) result }
        ensures held { (hub : ℕ) (older : list_of Window) (window : Window) → IsHeld catalog.now (hashes_of H.function) hub older window self.now.rows (delivered items.now)
            → Answers result None [] }
    {
        let alloc = self.held.allocator();
        let missing = missing_for(alloc, items, catalog)?;
        let lists = lists_for(
            alloc, &missing, items, &self.held, &OwnKeys, catalog, digest,
        )?;
        let rows = hub_rows(alloc, load, lists.items(), catalog)?;
        Ok(rows)
    }
}
