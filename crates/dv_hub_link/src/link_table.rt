ghost use Rattle.std.specs.Prelude.{◌≡◌, ◌≤◌, ◌++◌, [], ℕ, List as list_of, None, IfOk, IsTrue, OnOk, length, map, nat_le, option_map};
ghost use Rattle.std.specs.List.{list_all};
ghost use Rattle.dv_text.specs.Keys.{hashes_of};
ghost use Rattle.dv_text.specs.declared.rows.Window.{Window};
ghost use Rattle.dv_records.specs.Deltas.{Answers, AreHashed, HasNoClash, IfCollides, IsLeastClash, delivered};
ghost use Rattle.dv_hub_link.specs.LinkDeltas.{AnswersBatch, AreLinkItems, IsHeld, link_delta, link_hashed};
ghost use Rattle.dv_hub_link.specs.LinkLists as lists;
ghost use Rattle.dv_hub_link.specs.LinkLists.{are_of_links};
ghost use Rattle.dv_hub_link.specs.LinkRows as spec;
ghost use Rattle.dv_hub_link.specs.LinkRows.{are_link_rows};

use crate::additions::missing_for;
use crate::deltas::lists_for;
use crate::key_rows::KeyRows;
use crate::link_rows::link_rows;
use crate::named_keys::NamedKeys;
use dv_catalog::{Catalog, TableId};
use dv_index::IndexedRows;
use dv_records::{DeltaFault, HashedDelivery, HubNames, LinkRow};
use dv_text::{Digest, KeyDigest, List, Memory, Stamp};
use std::alloc::Global;
use std::marker::Model;

// The hubs of the link that deliveries are to; none where there are no deliveries.
fn hubs_of<'a>(items: &[HashedDelivery], catalog: &'a Catalog) -> &'a [u32]
    requires { IsTrue (are_of_links catalog.now (delivered items.now)) }
    ensures { result.now ≡ lists.hubs_of catalog.now (delivered items.now) }
{
    let Some(first) = items.first() else {
        return &[];
    };
    match first.table {
        TableId::Link(link) => catalog.link(link).hubs.items(),
        _ => &[],
    }
}

/// The table of a link (Linstedt and Olschimke 2015, chapter 4, on links). Contracts see it as its rows, in the
/// order in which they were loaded, and for how many more there is room. No two rows have one hash key, and
/// their load dates do not fall.
#[derive(Drop)]
pub struct LinkTable {
    held: KeyRows<LinkRow>,
}

impl Model for LinkTable {
    ghost use Rattle.dv_records.specs.declared.raw_rows.LinkRow.{LinkRow};
    ghost use Rattle.dv_index.specs.Places.{Indexed};

    ghost Value = { Indexed LinkRow };

    ghost view = { λ t. t.held };
}

impl LinkTable {
    /// The table of these rows. Condition: no two have one digest, and their load dates do not fall.
    pub fn from_rows(alloc: Global, rows: List<LinkRow>) -> Result<LinkTable, Memory>
        requires { IsTrue (are_link_rows rows) }
        ensures { IfOk result (λ table. table.rows ≡ rows) }
    {
        let held = KeyRows::from_rows(alloc, rows)?;
        Ok(LinkTable { held })
    }

    /// The table of rows that have an index. Condition: no two have one digest, and their load dates do not fall.
    /// Takes no memory.
    pub fn from_indexed(indexed: IndexedRows<LinkRow>) -> LinkTable
        requires { IsTrue (are_link_rows indexed.rows) }
        ensures { result ≡ indexed }
    {
        let held = KeyRows::from_indexed(indexed);
        LinkTable { held }
    }

    /// The rows, in the order in which they were loaded. Takes no memory.
    pub fn rows(&self) -> &[LinkRow]
        ensures value { result.now ≡ self.now.rows }
        ensures kept { IsTrue (are_link_rows self.now.rows) }
    {
        self.held.rows()
    }

    /// The rows themselves. Takes no memory.
    pub fn into_rows(self) -> List<LinkRow>
        ensures value { result ≡ self.rows }
        ensures kept { IsTrue (are_link_rows self.rows) }
    {
        self.held.into_rows()
    }

    /// Whether a row has this digest. Takes no memory.
    pub fn has(&self, d: &Digest) -> bool
        ensures { result ≡ spec.has_digest d.now self.now.rows }
    {
        self.held.has(d)
    }

    /// The hash keys of the references of the row with this digest; none exactly where no row has it. Takes no
    /// memory.
    pub fn hubs(&self, d: &Digest) -> Option<&List<Digest>>
        ensures { option_map (λ hubs. hubs.now) result ≡ spec.hubs_with d.now self.now.rows }
    {
        let row = self.held.row(d)?;
        Some(&row.hubs)
    }

    /// Of each of these digests its row, in their order; none exactly where no row has it. One walk over the index.
    pub fn rows_of(&self, digests: &[Digest]) -> Result<Vec<Option<&LinkRow>>, Memory>
        ensures { IfOk result (λ found. map (option_map (λ row. row.now)) found.items ≡ map (λ d. spec.row_with d self.now.rows) digests.now) }
    {
        self.held.rows_of(digests)
    }

    /// Makes room for so many more rows. The rows stay as they are, also for want of memory.
    pub fn reserve(&mut self, more: u64) -> Result<(), Memory>
        ensures rows { self.new.rows ≡ self.old.rows }
        ensures room { OnOk result (more ≤ self.new.spare) }
    {
        self.held.reserve(more)
    }

    /// Appends rows. Conditions: there is room for them; no two of all rows have one digest, and the load
    /// dates of all rows do not fall. Takes no memory.
    pub fn apply(&mut self, rows: List<LinkRow>)
        requires room { length rows ≤ self.old.spare }
        requires whole { IsTrue (are_link_rows (self.old.rows ++ rows)) }
        ensures { self.new.rows ≡ self.old.rows ++ rows }
    {
        self.held.apply(rows);
    }

    /// The rows that a window adds to the link: of each delivered reference list that is not all missing, and
    /// whose hash key no row has, one row, by hash key. A row has the hash key of each reference, and of a
    /// missing one the zero key. Conditions: no row is later than the load date; the items are deliveries to
    /// one link of the catalog, by its feeds, no two of one list; a list has a key of each hub of the link, of
    /// the hub's number of parts, each of at most 4,096 bytes; an item's digest is the hash key of its list.
    /// Where two different lists among the list of missing keys, those of the items and those that the rows
    /// stand for have one hash key, the error is the least such pair. The names tell the key that a row's
    /// reference stands for, and where they have none it is the missing key. Want of memory is
    /// `DeltaFault::Memory`.
    pub fn delta<H: KeyDigest, N: HubNames>(
        &self,
        load: Stamp,
        items: &List<HashedDelivery<'_>>,
        names: &N,
        catalog: &Catalog,
        digest: &H,
    ) -> Result<List<LinkRow>, DeltaFault>
        requires dated { IsTrue (list_all (λ row. nat_le row.load load) self.now.rows) }
        requires items { AreLinkItems catalog.now (delivered items.now) }
        requires hashed { AreHashed (hashes_of H.function) items.now }
        ensures apart { IfOk result (λ made. HasNoClash (link_hashed catalog.now (hashes_of H.function) (N.names names.now) self.now.rows (delivered items.now))) }
        ensures rows { IfOk result (λ made. made ≡ link_delta catalog.now (hashes_of H.function) load self.now.rows (delivered items.now)) }
        ensures collision { IfCollides result (IsLeastClash (link_hashed catalog.now (hashes_of H.function) (N.names names.now) self.now.rows (delivered items.now))) }
        ensures whole { IfOk result (λ made. IsTrue (are_link_rows (self.now.rows ++ made))) }
        ensures batch { AnswersBatch catalog.now (hashes_of H.function) (N.names names.now) self.now.rows load (delivered items.now) result }
        ensures held { (link : ℕ) (older : list_of Window) (window : Window) → IsHeld catalog.now (hashes_of H.function) (N.names names.now) link older window self.now.rows (delivered items.now)
            → Answers result None [] }
    {
        let alloc = self.held.allocator();
        let named = NamedKeys {
            names,
            catalog,
            hubs: hubs_of(items.items(), catalog),
        };
        let missing = missing_for(alloc, items, catalog)?;
        let lists = lists_for(alloc, &missing, items, &self.held, &named, catalog, digest)?;
        let rows = link_rows(alloc, load, lists.items(), catalog, digest)?;
        Ok(rows)
    }
}
