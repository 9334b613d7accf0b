ghost use Rattle.std.specs.Prelude.{◌≡◌, ◌<◌, ◌≤◌, [], Contains, IfErr, IfNone, IfOk, IfSome, IsTrue, length, map, position, true};
ghost use Rattle.dv_text.specs.Keys.{hashes_of};
ghost use Rattle.dv_catalog.specs.Mappings.{is_valid};
ghost use Rattle.dv_catalog.specs.Tables.{tables};
ghost use Rattle.dv_records.specs.Outcomes.{late_after};
ghost use Rattle.dv_records.specs.ReadBack.{effect_rows_in, hub_rows_in, link_rows_in, multi_rows_in, sat_rows_in, status_rows_in};
ghost use Rattle.dv_records.specs.States.{is_window, last_sealed};
ghost use Rattle.dv_records.specs.Stores.{is_of_kind, no_rows, rows_in, table_eq};
ghost use Rattle.dv_records.specs.Weights.{tables_weight};
ghost use Rattle.dv_vault.specs.Additions as spec;
ghost use Rattle.dv_vault.specs.Additions.{Fits, IsAddition};
ghost use Rattle.dv_vault.specs.Vaults.{IsVaultOf, are_heads_of, are_rows_kept, entry_of};

use crate::additions::AdditionFault;
use crate::batches::{none_of_all, weight_with};
use crate::begun::Begun;
use crate::raw_tables::RawTables;
use crate::tables::Table;
use crate::teams::Team;
use dv_catalog::{Catalog, TableId};
use dv_crew::Order;
use dv_hub_link::{HubTable, LinkTable};
use dv_outside::Gate;
use dv_records::Rows;
use dv_sat::{MultiTable, SatTable};
use dv_text::{KeyDigest, List, Memory, Stamp, Window, WindowHead};
use dv_track::{EffectTable, StatusTable};
use std::alloc::Global;
use std::marker::Model;
use std::thread::Threads;

/// What is kept of the sealed windows: the raw tables of the mapping, and the windows' heads. Contracts see these.
#[derive(Drop)]
pub struct Vault {
    pub(crate) catalog: Catalog,
    pub(crate) raw: RawTables,
    pub(crate) heads: List<WindowHead>,
    pub(crate) weight: u64,
}

impl Model for Vault {
    ghost use Rattle.std.specs.Prelude.{◌≡◌, IsTrue};
    ghost use Rattle.dv_catalog.specs.Mappings.{is_valid};
    ghost use Rattle.dv_records.specs.Weights.{tables_weight};
    ghost use Rattle.dv_vault.specs.Vaults.{IsVaultOf, RawVault, are_heads_of, are_rows_kept, entries_of};

    ghost Value = { RawVault };

    ghost view = { λ v. record { mapping = v.catalog; tables = entries_of v.raw; heads = v.heads } };

    ghost invariant = { λ v. IsVaultOf v.catalog (entries_of v.raw)
        × IsTrue (are_rows_kept v.heads (entries_of v.raw)) × IsTrue (are_heads_of v.catalog v.heads) × (v.weight ≡ tables_weight (entries_of v.raw)) × IsTrue (is_valid v.catalog) };
}

// The load date of the last of these heads, if there is one.
fn last_load(heads: &[WindowHead]) -> Option<Stamp>
    ensures { result ≡ last_sealed heads.now }
{
    match heads.last() {
        Some(head) => Some(head.load),
        None => None,
    }
}

impl Vault {
    /// The vault of no windows.
    pub fn empty(alloc: Global, catalog: Catalog) -> Result<Vault, Memory>
        ensures mapping { IfOk result (λ vault. vault.mapping ≡ catalog) }
        ensures tables { IfOk result (λ vault. vault.tables ≡ map (λ id. record { table = id; rows = no_rows id }) (tables catalog)) }
        ensures heads { IfOk result (λ vault. vault.heads ≡ []) }
    {
        catalog.note_valid();
        let raw = RawTables::empty(alloc, &catalog)?;
        Ok(Vault {
            catalog,
            raw,
            heads: List::new(alloc),
            weight: 0,
        })
    }

    /// The vault of sealed windows with these heads, whose rows stand in these tables, which weigh so much. Conditions:
    /// they are the tables of the mapping, in table order; no row is later than the last head; the feeds of the heads
    /// are in the mapping. Takes no memory.
    pub fn from_tables(
        catalog: Catalog,
        tables: Vec<Table>,
        heads: List<WindowHead>,
        weight: u64,
    ) -> Vault
        requires tables { IsVaultOf catalog (map entry_of tables.items) }
        requires rows { IsTrue (are_rows_kept heads (map entry_of tables.items)) }
        requires heads { IsTrue (are_heads_of catalog heads) }
        requires weight { weight ≡ tables_weight (map entry_of tables.items) }
        ensures mapping { result.mapping ≡ catalog }
        ensures tables { result.tables ≡ map entry_of tables.items }
        ensures heads { result.heads ≡ heads }
    {
        catalog.note_valid();
        let raw = RawTables { tables };
        Vault {
            catalog,
            raw,
            heads,
            weight,
        }
    }

    /// The mapping, whose raw tables the vault has, in table order. Takes no memory.
    pub fn catalog(&self) -> &Catalog
        ensures value { result.now ≡ self.now.mapping }
        ensures valid { IsTrue (is_valid self.now.mapping) }
        ensures tables { IsVaultOf self.now.mapping self.now.tables }
    {
        &self.catalog
    }

    /// The heads of the sealed windows, in order. Takes no memory.
    pub fn heads(&self) -> &List<WindowHead>
        ensures value { result.now ≡ self.now.heads }
        ensures feeds { IsTrue (are_heads_of self.now.mapping self.now.heads) }
    {
        &self.heads
    }

    /// The load date of the last sealed window; none where none is sealed. Takes no memory.
    pub fn last(&self) -> Option<Stamp>
        ensures { result ≡ last_sealed self.now.heads }
    {
        last_load(self.heads.items())
    }

    /// The place of a raw table in table order; none where the mapping doesn't have it. Its rows are of
    /// its kind. Takes no memory.
    pub fn place_of(&self, table: TableId) -> Option<usize>
        ensures place { result ≡ position (λ entry. table_eq entry.table table) self.now.tables }
        ensures kind { is_of_kind table (rows_in table self.now.tables) ≡ true }
        ensures tables { IsVaultOf self.now.mapping self.now.tables }
    {
        self.raw.place_of(table)
    }

    /// The table of the hub at a place in declared order. Condition: the mapping has it. Takes no memory.
    pub fn hub(&self, i: u32) -> &HubTable
        requires { i < length self.now.mapping.hubs }
        ensures { result.now.rows ≡ hub_rows_in i self.now.tables }
    {
        self.raw.hub(i)
    }

    /// The table of the link at a place in declared order. Condition: the mapping has it. Takes no memory.
    pub fn link(&self, i: u32) -> &LinkTable
        requires { i < length self.now.mapping.links }
        ensures { result.now.rows ≡ link_rows_in i self.now.tables }
    {
        self.raw.link(i)
    }

    /// The satellite of the feed at a place in declared order: exactly where the feed has one. Takes no memory.
    pub fn sat(&self, feed: u32) -> Option<&SatTable>
        ensures rows { IfSome result (λ table. table.now.rows ≡ sat_rows_in feed self.now.tables) }
        ensures there { IfSome result (λ table. Contains (tables self.now.mapping) (TableId.Sat feed)) }
        ensures absent { IfNone result (Contains (tables self.now.mapping) (TableId.Sat feed) → ⊥) }
    {
        self.raw.sat(feed)
    }

    /// The multi-active satellite of the feed at a place in declared order: exactly where the feed has one. Takes no
    /// memory.
    pub fn multi(&self, feed: u32) -> Option<&MultiTable>
        ensures rows { IfSome result (λ table. table.now.rows ≡ multi_rows_in feed self.now.tables) }
        ensures there { IfSome result (λ table. Contains (tables self.now.mapping) (TableId.Multi feed)) }
        ensures absent { IfNone result (Contains (tables self.now.mapping) (TableId.Multi feed) → ⊥) }
    {
        self.raw.multi(feed)
    }

    /// The status table of the feed at a place in declared order. Condition: the mapping has it. Takes no memory.
    pub fn status(&self, feed: u32) -> &StatusTable
        requires { feed < length self.now.mapping.feeds }
        ensures { result.now.rows ≡ status_rows_in feed self.now.tables }
    {
        self.raw.status(feed)
    }

    /// The effectivity table of the feed at a place in declared order: exactly where the feed has driving keys. Takes
    /// no memory.
    pub fn effect(&self, feed: u32) -> Option<&EffectTable>
        ensures rows { IfSome result (λ table. table.now.rows ≡ effect_rows_in feed self.now.tables) }
        ensures there { IfSome result (λ table. Contains (tables self.now.mapping) (TableId.Effect feed)) }
        ensures absent { IfNone result (Contains (tables self.now.mapping) (TableId.Effect feed) → ⊥) }
    {
        self.raw.effect(feed)
    }

    // The rows that a window adds to each table, in table order, or the first collision that it makes.
    fn batches<H: KeyDigest>(
        &self,
        window: &Window,
        digest: &H,
    ) -> Result<List<Rows>, AdditionFault>
        requires later { late_after (last_sealed self.now.heads) window.now.load ≡ None }
        requires window { IsTrue (is_window self.now.mapping window.now) }
        ensures rows { IfOk result (λ batches. batches ≡ spec.all_added (hashes_of H.function) self.now window.now) }
        ensures apart { IfOk result (λ batches. spec.AreApart (hashes_of H.function) self.now window.now) }
        ensures follow { IfOk result (spec.FollowAll window.now.load self.now.tables) }
        ensures clashes { IfErr result (spec.Clashes (hashes_of H.function) self.now window.now) }
    {
        self.raw
            .added(self.heads.allocator(), &self.catalog, window, digest)
    }

    // As `batches`, worked out by a team.
    fn batches_by<R: Threads + Sync, H: KeyDigest, G: Gate>(
        &self,
        rt: &R,
        window: &Window,
        digest: &H,
        team: &Team<'_, G>,
    ) -> Result<List<Rows>, AdditionFault>
        requires later { late_after (last_sealed self.now.heads) window.now.load ≡ None }
        requires window { IsTrue (is_window self.now.mapping window.now) }
        ensures rows { IfOk result (λ batches. batches ≡ spec.all_added (hashes_of H.function) self.now window.now) }
        ensures apart { IfOk result (λ batches. spec.AreApart (hashes_of H.function) self.now window.now) }
        ensures follow { IfOk result (spec.FollowAll window.now.load self.now.tables) }
        ensures clashes { IfErr result (spec.Clashes (hashes_of H.function) self.now window.now) }
    {
        let alloc = self.heads.allocator();
        self.raw
            .added_by(rt, alloc, &self.catalog, window, digest, team)
    }

    // A window that adds these rows to the tables, none of which has a row of it.
    fn begun<H: KeyDigest>(&self, window: Window, rest: List<Rows>) -> Result<Begun, Memory>
        requires later { late_after (last_sealed self.now.heads) window.load ≡ None }
        requires window { IsTrue (is_window self.now.mapping window) }
        requires rows { rest ≡ spec.all_added (hashes_of H.function) self.now window }
        requires apart { spec.AreApart (hashes_of H.function) self.now window }
        requires follow { spec.FollowAll window.load self.now.tables rest }
        ensures adds { IfOk result (IsAddition (hashes_of H.function) self.now window) }
        ensures fits { IfOk result (Fits self.now) }
    {
        let alloc = self.heads.allocator();
        let weight_before = self.weight;
        let weight = weight_with(weight_before, rest.items())?;
        let opened = none_of_all(alloc, &self.raw.tables)?;
        let begun = Begun::of(alloc, window, opened, rest, weight)?;
        Ok(begun)
    }

    /// What a window adds to the vault, of which no table has a row. Where it makes a collision, the fault names the first
    /// table that has one, and the least pair there. Condition: it is a window of the mapping, later than the last sealed
    /// one.
    pub fn addition<H: KeyDigest>(&self, window: Window, digest: &H) -> Result<Begun, AdditionFault>
        requires later { late_after (last_sealed self.now.heads) window.load ≡ None }
        requires window { IsTrue (is_window self.now.mapping window) }
        ensures adds { IfOk result (IsAddition (hashes_of H.function) self.now window) }
        ensures fits { IfOk result (Fits self.now) }
        ensures clashes { IfErr result (spec.Clashes (hashes_of H.function) self.now window) }
    {
        let rest = self.batches(&window, digest)?;
        let begun = self.begun::<H>(window, rest)?;
        Ok(begun)
    }

    /// As `addition`, worked out by so many workers, one of them on the calling thread. They begin the tasks of the window
    /// in the given order, and pass the gate before and after each. The number of workers, the order and the gate change
    /// nothing of what is added.
    pub fn addition_by<R: Threads + Sync, H: KeyDigest, G: Gate>(
        &self,
        rt: &R,
        window: Window,
        workers: u32,
        order: Order,
        digest: &H,
        gate: &G,
    ) -> Result<Begun, AdditionFault>
        requires later { late_after (last_sealed self.now.heads) window.load ≡ None }
        requires window { IsTrue (is_window self.now.mapping window) }
        requires workers { (1 ≤ workers) × (workers ≤ 64) }
        ensures adds { IfOk result (IsAddition (hashes_of H.function) self.now window) }
        ensures fits { IfOk result (Fits self.now) }
        ensures clashes { IfErr result (spec.Clashes (hashes_of H.function) self.now window) }
    {
        let team = Team {
            workers,
            order,
            gate,
        };
        let rest = self.batches_by(rt, &window, digest, &team)?;
        let begun = self.begun::<H>(window, rest)?;
        Ok(begun)
    }
}
