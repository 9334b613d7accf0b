ghost use Rattle.std.specs.Prelude.{◌≡◌, false, IfErr, IfNone, IfOk, IfSome, IsTrue, find, map, option_map, position, true};
ghost use Rattle.dv_text.specs.Keys.{hashes_of};
ghost use Rattle.dv_catalog.specs.Tables.{tables};
ghost use Rattle.dv_records.specs.ReadBack.{effect_rows_in, hub_rows_in, link_rows_in, multi_rows_in, sat_rows_in, status_rows_in};
ghost use Rattle.dv_records.specs.Stores.{is_of_kind, no_rows, rows_in, table_eq};
ghost use Rattle.dv_records.specs.RowViews.{are_up_to};
ghost use Rattle.dv_records.specs.States.{is_window};
ghost use Rattle.dv_vault.specs.Additions.{AreApartBy, ClashesAt, FollowAll};
ghost use Rattle.dv_vault.specs.Vaults.{entries_of, entry_of};
ghost use Rattle.dv_vault.specs.Vaults as spec;

use crate::additions::AdditionFault;
use crate::batches::all_deltas;
use crate::hub_keys::hub_keys;
use crate::jobs::{WindowJob, deltas_by};
use crate::tables::Table;
use crate::teams::Team;
use dv_catalog::{Catalog, TableId};
use dv_hub_link::{HubTable, LinkTable};
use dv_outside::Gate;
use dv_records::Rows;
use dv_sat::{MultiTable, SatTable};
use dv_text::{KeyDigest, List, Memory, Window};
use dv_track::{EffectTable, StatusTable};
use dv_window_keys::{gathered, gathered_by};
use std::alloc::Global;
use std::thread::Threads;

/// The raw tables of a mapping, in table order (Linstedt and Olschimke 2015, chapter 4).
#[derive(Drop)]
pub struct RawTables {
    pub tables: Vec<Table>,
}

// Tables without rows.
fn empty_tables(alloc: Global, ids: &[TableId]) -> Result<Vec<Table>, Memory>
    ensures { IfOk result (λ tables. map entry_of tables.items ≡ map (λ id. record { table = id; rows = no_rows id }) ids.now) }
{
    let mut tables = Vec::new(alloc);
    for id in ids {
        tables.push(Table::empty(alloc, *id)?)?;
    }
    Ok(tables)
}

// Whether a table has an id.
fn is_table(table: &Table, id: TableId) -> bool
    ensures { result ≡ table_eq (entry_of table.now).table id }
{
    table.id() == id
}

// The first table with an id.
fn find_table(tables: &[Table], id: TableId) -> Option<&Table>
    ensures { option_map (λ table. table.now) result ≡ find (λ table. table_eq (entry_of table).table id) tables.now }
{
    tables.iter().find(|table| is_table(table, id))
}

// The place of the first table with an id.
pub(crate) fn find_place(tables: &[Table], id: TableId) -> Option<usize>
    ensures { result ≡ position (λ table. table_eq (entry_of table).table id) tables.now }
{
    tables.iter().position(|table| is_table(table, id))
}

impl RawTables {
    /// The tables of a mapping, without rows.
    pub(crate) fn empty(alloc: Global, catalog: &Catalog) -> Result<RawTables, Memory>
        ensures { IfOk result (λ raw. entries_of raw ≡ map (λ id. record { table = id; rows = no_rows id }) (tables catalog.now)) }
    {
        let ids = catalog.tables()?;
        let tables = empty_tables(alloc, ids.items())?;
        Ok(RawTables { tables })
    }

    // The table with an id: the first one.
    fn table(&self, id: TableId) -> Option<&Table>
        ensures { option_map (λ table. entry_of table.now) result ≡ find (λ entry. table_eq entry.table id) (entries_of self.now) }
    {
        find_table(&self.tables, id)
    }

    /// The place of a table, in table order; none where it isn't among them. Takes no memory.
    pub(crate) fn place_of(&self, id: TableId) -> Option<usize>
        ensures place { result ≡ position (λ entry. table_eq entry.table id) (entries_of self.now) }
        ensures kind { is_of_kind id (rows_in id (entries_of self.now)) ≡ true }
    {
        find_place(&self.tables, id)
    }

    fn hub_at(&self, i: u32) -> Option<&HubTable>
        ensures some { IfSome result (λ table. table.now.rows ≡ hub_rows_in i (entries_of self.now)) }
        ensures none { IfNone result (spec.has_table (TableId.Hub i) (entries_of self.now) ≡ false) }
    {
        self.table(TableId::Hub(i))?.as_hub()
    }

    fn link_at(&self, i: u32) -> Option<&LinkTable>
        ensures some { IfSome result (λ table. table.now.rows ≡ link_rows_in i (entries_of self.now)) }
        ensures none { IfNone result (spec.has_table (TableId.Link i) (entries_of self.now) ≡ false) }
    {
        self.table(TableId::Link(i))?.as_link()
    }

    fn status_at(&self, feed: u32) -> Option<&StatusTable>
        ensures some { IfSome result (λ table. table.now.rows ≡ status_rows_in feed (entries_of self.now)) }
        ensures none { IfNone result (spec.has_table (TableId.Status feed) (entries_of self.now) ≡ false) }
    {
        self.table(TableId::Status(feed))?.as_status()
    }

    /// The table of the hub at a place in declared order. Condition: it is among them. Takes no memory.
    pub(crate) fn hub(&self, i: u32) -> &HubTable
        requires { IsTrue (spec.has_table (TableId.Hub i) (entries_of self.now)) }
        ensures { result.now.rows ≡ hub_rows_in i (entries_of self.now) }
    {
        match self.hub_at(i) {
            Some(table) => table,
            None => unreachable!(),
        }
    }

    /// The table of the link at a place in declared order. Condition: it is among them. Takes no memory.
    pub(crate) fn link(&self, i: u32) -> &LinkTable
        requires { IsTrue (spec.has_table (TableId.Link i) (entries_of self.now)) }
        ensures { result.now.rows ≡ link_rows_in i (entries_of self.now) }
    {
        match self.link_at(i) {
            Some(table) => table,
            None => unreachable!(),
        }
    }

    /// The satellite of the feed at a place in declared order; none where the feed has none. Takes no memory.
    pub(crate) fn sat(&self, feed: u32) -> Option<&SatTable>
        ensures some { IfSome result (λ table. table.now.rows ≡ sat_rows_in feed (entries_of self.now)) }
        ensures there { IfSome result (λ table. IsTrue (spec.has_table (TableId.Sat feed) (entries_of self.now))) }
        ensures none { IfNone result (spec.has_table (TableId.Sat feed) (entries_of self.now) ≡ false) }
    {
        self.table(TableId::Sat(feed))?.as_sat()
    }

    /// The multi-active satellite of the feed at a place in declared order; none where the feed has none. Takes no
    /// memory.
    pub(crate) fn multi(&self, feed: u32) -> Option<&MultiTable>
        ensures some { IfSome result (λ table. table.now.rows ≡ multi_rows_in feed (entries_of self.now)) }
        ensures there { IfSome result (λ table. IsTrue (spec.has_table (TableId.Multi feed) (entries_of self.now))) }
        ensures none { IfNone result (spec.has_table (TableId.Multi feed) (entries_of self.now) ≡ false) }
    {
        self.table(TableId::Multi(feed))?.as_multi()
    }

    /// The effectivity table of the feed at a place in declared order; none where the feed has none. Takes no memory.
    pub(crate) fn effect(&self, feed: u32) -> Option<&EffectTable>
        ensures some { IfSome result (λ table. table.now.rows ≡ effect_rows_in feed (entries_of self.now)) }
        ensures there { IfSome result (λ table. IsTrue (spec.has_table (TableId.Effect feed) (entries_of self.now))) }
        ensures none { IfNone result (spec.has_table (TableId.Effect feed) (entries_of self.now) ≡ false) }
    {
        self.table(TableId::Effect(feed))?.as_effect()
    }

    /// The status table of the feed at a place in declared order. Condition: it is among them. Takes no memory.
    pub(crate) fn status(&self, feed: u32) -> &StatusTable
        requires { IsTrue (spec.has_table (TableId.Status feed) (entries_of self.now)) }
        ensures { result.now.rows ≡ status_rows_in feed (entries_of self.now) }
    {
        match self.status_at(feed) {
            Some(table) => table,
            None => unreachable!(),
        }
    }

    /// The rows that a window adds to each of the tables of a mapping, in table order, or the first collision that it makes. To
    /// a table of a feed that has rows of its load date it adds none. Condition: no row is later than the window, which is
    /// one of the mapping.
    pub fn added<H: KeyDigest>(
        &self,
        alloc: Global,
        catalog: &Catalog,
        window: &Window,
        digest: &H,
    ) -> Result<List<Rows>, AdditionFault>
        requires tables { spec.IsVaultOf catalog.now (entries_of self.now) }
        requires dated { IsTrue (are_up_to window.now.load (entries_of self.now)) }
        requires window { IsTrue (is_window catalog.now window.now) }
        ensures rows { IfOk result (λ batches. batches ≡ map (spec.added_to catalog.now (hashes_of H.function) window.now) (entries_of self.now)) }
        ensures apart { IfOk result (λ batches. AreApartBy catalog.now (hashes_of H.function) (spec.hub_names catalog.now (entries_of self.now)) window.now (entries_of self.now)) }
        ensures follow { IfOk result (FollowAll window.now.load (entries_of self.now)) }
        ensures clashes { IfErr result (ClashesAt catalog.now (hashes_of H.function) (spec.hub_names catalog.now (entries_of self.now)) window.now (entries_of self.now)) }
    {
        catalog.note_valid();
        let names = hub_keys(alloc, catalog, self)?;
        let hashed = gathered(alloc, catalog, window, digest)?;
        all_deltas(alloc, &self.tables, &names, &hashed, catalog, digest)
    }

    /// As `added`, worked out by a team.
    pub(crate) fn added_by<R: Threads + Sync, H: KeyDigest, G: Gate>(
        &self,
        rt: &R,
        alloc: Global,
        catalog: &Catalog,
        window: &Window,
        digest: &H,
        team: &Team<'_, G>,
    ) -> Result<List<Rows>, AdditionFault>
        requires tables { spec.IsVaultOf catalog.now (entries_of self.now) }
        requires dated { IsTrue (are_up_to window.now.load (entries_of self.now)) }
        requires window { IsTrue (is_window catalog.now window.now) }
        ensures rows { IfOk result (λ batches. batches ≡ map (spec.added_to catalog.now (hashes_of H.function) window.now) (entries_of self.now)) }
        ensures apart { IfOk result (λ batches. AreApartBy catalog.now (hashes_of H.function) (spec.hub_names catalog.now (entries_of self.now)) window.now (entries_of self.now)) }
        ensures follow { IfOk result (FollowAll window.now.load (entries_of self.now)) }
        ensures clashes { IfErr result (ClashesAt catalog.now (hashes_of H.function) (spec.hub_names catalog.now (entries_of self.now)) window.now (entries_of self.now)) }
    {
        catalog.note_valid();
        let names = hub_keys(alloc, catalog, self)?;
        let hashed = gathered_by(rt, alloc, catalog, window, team.workers, digest)?;
        let job = WindowJob {
            tables: &self.tables,
            names: &names,
            window: &hashed,
            catalog,
            digest,
        };
        deltas_by(rt, alloc, &job, team)
    }
}
