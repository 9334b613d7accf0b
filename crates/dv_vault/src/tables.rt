// A raw table of the vault, of any kind, and what a window adds to it.
ghost use Rattle.std.specs.Prelude.{◌≡◌, ◌≤◌, ◌<◌, ◌==◌, [], false, find, IfNone, IfOk, IfSome, IsTrue, OnOk, length, option_map};
ghost use Rattle.std.specs.List.{list_all};
ghost use Rattle.std.specs.List.Sorted.{IsStrictlySortedBy};
ghost use Rattle.dv_text.specs.Keys.{hashes_of};
ghost use Rattle.dv_text.specs.Orders.{row_cmp};
ghost use Rattle.dv_digest.specs.Fits.{attrs_fit};
ghost use Rattle.dv_digest.specs.HashedExtracts.{HasKeys};
ghost use Rattle.dv_catalog.specs.Mappings.{is_valid};
ghost use Rattle.dv_catalog.specs.TableLookups.{is_table_of};
ghost use Rattle.dv_records.specs.Deltas.{HasNoClash, IfCollides, IsLeastClash};
ghost use Rattle.dv_records.specs.RowViews.{AreOfLoad, is_up_to};
ghost use Rattle.dv_records.specs.States.{is_window};
ghost use Rattle.dv_records.specs.Stores.{no_rows, row_count, rows_then};
ghost use Rattle.dv_window_keys.specs.HashedWindows.{IsHashedWindow};
ghost use Rattle.dv_window_keys.specs.WindowItems.{IsKept};
ghost use Rattle.dv_vault.specs.Vaults as spec;
ghost use Rattle.dv_vault.specs.Vaults.{Follow, added_to, entry_of, hashed_in, spare_of};

use dv_catalog::{Catalog, Parent, TableId};
use dv_digest::HashedExtract;
use dv_hub_link::{HubTable, LinkTable};
use dv_records::{DeltaFault, HubNames, RawTable, Rows};
use dv_sat::{MultiTable, SatTable};
use dv_text::{KeyDigest, List, Memory, Stamp};
use dv_track::{EffectTable, StatusTable};
use dv_window_keys::{HashedWindow, KeptKeys, deliveries};
use std::alloc::Global;

/// A raw table of any kind, by the place of its hub, link or feed in declared order.
#[derive(Drop)]
pub enum Table {
    Hub { hub: u32, rows: HubTable },
    Link { link: u32, rows: LinkTable },
    Sat { feed: u32, rows: SatTable },
    Multi { feed: u32, rows: MultiTable },
    Status { feed: u32, rows: StatusTable },
    Effect { feed: u32, rows: EffectTable },
}

// The extract of a feed among extracts.
fn extract_in<'b, 'a>(extracts: &'b [HashedExtract<'a>], feed: u32) -> Option<&'b HashedExtract<'a>>
    ensures { option_map (λ extract. extract.now) result ≡ find (λ extract. extract.staged.now.feed == feed) extracts.now }
{
    extracts.iter().find(|extract| extract.staged.feed == feed)
}

/// The extract of a feed in a window, which has its hash keys, and whose rows ascend and fit what they are hashed in.
pub(crate) fn extract_of<'b, 'a, H: KeyDigest>(
    catalog: &Catalog,
    window: &'b HashedWindow<'a>,
    feed: u32,
) -> Option<&'b HashedExtract<'a>>
    requires valid { IsTrue (is_valid catalog.now) }
    requires window { IsTrue (is_window catalog.now window.now.window.now) }
    requires gathered { IsHashedWindow (hashes_of H.function) window.now }
    ensures found { option_map (λ extract. extract.now.staged.now) result ≡ spec.staged_of feed window.now.window.now }
    ensures feed { IfSome result (λ extract. extract.now.staged.now.feed ≡ feed) }
    ensures keys { IfSome result (λ extract. HasKeys (hashes_of H.function) extract.now) }
    ensures ascending { IfSome result (λ extract. IsStrictlySortedBy row_cmp extract.now.staged.now.rows) }
    ensures attrs_fit { IfSome result (λ extract. IsTrue (list_all (λ row. attrs_fit row.attrs) extract.now.staged.now.rows)) }
{
    extract_in(window.extracts.items(), feed)
}

// The rows that a window adds to a hub.
fn hub_rows<'b, H: KeyDigest>(
    alloc: Global,
    hub: u32,
    table: &HubTable,
    window: &'b HashedWindow<'_>,
    kept: Option<&KeptKeys<'b>>,
    catalog: &Catalog,
    digest: &H,
) -> Result<Rows, DeltaFault>
    requires hub { hub < length catalog.now.hubs }
    requires valid { IsTrue (is_valid catalog.now) }
    requires window { IsTrue (is_window catalog.now window.now.window.now) }
    requires gathered { IsHashedWindow (hashes_of H.function) window.now }
    requires dated { IsTrue (is_up_to window.now.window.now.load (Rows.Hubs table.now.rows)) }
    requires kept { IfSome kept (λ kept. IsKept catalog.now (hashes_of H.function) window.now.window.now kept.now) }
    ensures rows { IfOk result (λ rows. rows ≡ spec.added catalog.now (hashes_of H.function) window.now.window.now (TableId.Hub hub) (Rows.Hubs table.now.rows)) }
    ensures apart { IfOk result (λ rows. HasNoClash (spec.hashed catalog.now (hashes_of H.function) [] window.now.window.now (TableId.Hub hub) (Rows.Hubs table.now.rows))) }
    ensures collision { IfCollides result (IsLeastClash (spec.hashed catalog.now (hashes_of H.function) [] window.now.window.now (TableId.Hub hub) (Rows.Hubs table.now.rows))) }
    ensures follow { IfOk result (λ rows. Follow (Rows.Hubs table.now.rows) rows) }
    ensures stamped { IfOk result (λ rows. AreOfLoad window.now.window.now.load rows) }
{
    let items = deliveries(alloc, catalog, window, Parent::Hub(hub), kept, digest)?;
    let rows = table.delta(window.window.load, &items, catalog, digest)?;
    Ok(Rows::Hubs(rows))
}

// The rows that a window adds to a link.
fn link_rows<'b, H: KeyDigest, N: HubNames>(
    alloc: Global,
    link: u32,
    table: &LinkTable,
    names: &N,
    window: &'b HashedWindow<'_>,
    kept: Option<&KeptKeys<'b>>,
    catalog: &Catalog,
    digest: &H,
) -> Result<Rows, DeltaFault>
    requires link { link < length catalog.now.links }
    requires valid { IsTrue (is_valid catalog.now) }
    requires window { IsTrue (is_window catalog.now window.now.window.now) }
    requires gathered { IsHashedWindow (hashes_of H.function) window.now }
    requires dated { IsTrue (is_up_to window.now.window.now.load (Rows.Links table.now.rows)) }
    requires kept { IfSome kept (λ kept. IsKept catalog.now (hashes_of H.function) window.now.window.now kept.now) }
    ensures rows { IfOk result (λ rows. rows ≡ spec.added catalog.now (hashes_of H.function) window.now.window.now (TableId.Link link) (Rows.Links table.now.rows)) }
    ensures apart { IfOk result (λ rows. HasNoClash (spec.hashed catalog.now (hashes_of H.function) (N.names names.now) window.now.window.now (TableId.Link link) (Rows.Links table.now.rows))) }
    ensures collision { IfCollides result (IsLeastClash (spec.hashed catalog.now (hashes_of H.function) (N.names names.now) window.now.window.now (TableId.Link link) (Rows.Links table.now.rows))) }
    ensures follow { IfOk result (λ rows. Follow (Rows.Links table.now.rows) rows) }
    ensures stamped { IfOk result (λ rows. AreOfLoad window.now.window.now.load rows) }
{
    let items = deliveries(alloc, catalog, window, Parent::Link(link), kept, digest)?;
    let rows = table.delta(window.window.load, &items, names, catalog, digest)?;
    Ok(Rows::Links(rows))
}

impl Table {
    /// A raw table without rows.
    pub(crate) fn empty(alloc: Global, table: TableId) -> Result<Table, Memory>
        ensures { IfOk result (λ made. entry_of made ≡ record { table = table; rows = no_rows table }) }
    {
        match table {
            TableId::Hub(hub) => Ok(Table::Hub {
                hub,
                rows: HubTable::from_rows(alloc, List::new(alloc))?,
            }),
            TableId::Link(link) => Ok(Table::Link {
                link,
                rows: LinkTable::from_rows(alloc, List::new(alloc))?,
            }),
            TableId::Sat(feed) => Ok(Table::Sat {
                feed,
                rows: SatTable::from_rows(alloc, List::new(alloc))?,
            }),
            TableId::Multi(feed) => Ok(Table::Multi {
                feed,
                rows: MultiTable::from_rows(alloc, List::new(alloc))?,
            }),
            TableId::Status(feed) => Ok(Table::Status {
                feed,
                rows: StatusTable::from_rows(alloc, List::new(alloc))?,
            }),
            TableId::Effect(feed) => Ok(Table::Effect {
                feed,
                rows: EffectTable::from_rows(alloc, List::new(alloc))?,
            }),
        }
    }

    /// Which table it is. Takes no memory.
    pub fn id(&self) -> TableId
        ensures { result ≡ (entry_of self.now).table }
    {
        match self {
            Table::Hub { hub, .. } => TableId::Hub(*hub),
            Table::Link { link, .. } => TableId::Link(*link),
            Table::Sat { feed, .. } => TableId::Sat(*feed),
            Table::Multi { feed, .. } => TableId::Multi(*feed),
            Table::Status { feed, .. } => TableId::Status(*feed),
            Table::Effect { feed, .. } => TableId::Effect(*feed),
        }
    }

    /// The table, if it is a hub's table.
    pub(crate) fn as_hub(&self) -> Option<&HubTable>
        ensures some { IfSome result (λ table. (entry_of self.now).rows ≡ Rows.Hubs table.now.rows) }
        ensures none { IfNone result (spec.is_hub (entry_of self.now).table ≡ false) }
    {
        match self {
            Table::Hub { rows, .. } => Some(rows),
            _ => None,
        }
    }

    /// The table, if it is a link's table.
    pub(crate) fn as_link(&self) -> Option<&LinkTable>
        ensures some { IfSome result (λ table. (entry_of self.now).rows ≡ Rows.Links table.now.rows) }
        ensures none { IfNone result (spec.is_link (entry_of self.now).table ≡ false) }
    {
        match self {
            Table::Link { rows, .. } => Some(rows),
            _ => None,
        }
    }

    /// The table, if it is a satellite.
    pub(crate) fn as_sat(&self) -> Option<&SatTable>
        ensures some { IfSome result (λ table. (entry_of self.now).rows ≡ Rows.Sats table.now.rows) }
        ensures none { IfNone result (spec.is_sat (entry_of self.now).table ≡ false) }
    {
        match self {
            Table::Sat { rows, .. } => Some(rows),
            _ => None,
        }
    }

    /// The table, if it is a multi-active satellite.
    pub(crate) fn as_multi(&self) -> Option<&MultiTable>
        ensures some { IfSome result (λ table. (entry_of self.now).rows ≡ Rows.Multis table.now.rows) }
        ensures none { IfNone result (spec.is_multi (entry_of self.now).table ≡ false) }
    {
        match self {
            Table::Multi { rows, .. } => Some(rows),
            _ => None,
        }
    }

    /// The table, if it is a status table.
    pub(crate) fn as_status(&self) -> Option<&StatusTable>
        ensures some { IfSome result (λ table. (entry_of self.now).rows ≡ Rows.Statuses table.now.rows) }
        ensures none { IfNone result (spec.is_status (entry_of self.now).table ≡ false) }
    {
        match self {
            Table::Status { rows, .. } => Some(rows),
            _ => None,
        }
    }

    /// The table, if it is an effectivity table.
    pub(crate) fn as_effect(&self) -> Option<&EffectTable>
        ensures some { IfSome result (λ table. (entry_of self.now).rows ≡ Rows.Effects table.now.rows) }
        ensures none { IfNone result (spec.is_effect (entry_of self.now).table ≡ false) }
    {
        match self {
            Table::Effect { rows, .. } => Some(rows),
            _ => None,
        }
    }

    /// The rows that a window adds. Where two different keys of a hub, or reference lists of a link, have one
    /// hash key, the error is the least such pair. What the table of
    /// the window's keys keeps is not worked out again.
    pub(crate) fn delta<'b, H: KeyDigest, N: HubNames>(
        &self,
        alloc: Global,
        names: &N,
        window: &'b HashedWindow<'_>,
        kept: Option<&KeptKeys<'b>>,
        catalog: &Catalog,
        digest: &H,
    ) -> Result<Rows, DeltaFault>
        requires table { IsTrue (is_table_of catalog.now (entry_of self.now).table) }
        requires valid { IsTrue (is_valid catalog.now) }
        requires window { IsTrue (is_window catalog.now window.now.window.now) }
        requires gathered { IsHashedWindow (hashes_of H.function) window.now }
        requires dated { IsTrue (is_up_to window.now.window.now.load (entry_of self.now).rows) }
        requires kept { IfSome kept (λ kept. IsKept catalog.now (hashes_of H.function) window.now.window.now kept.now) }
        ensures rows { IfOk result (λ rows. rows ≡ added_to catalog.now (hashes_of H.function) window.now.window.now (entry_of self.now)) }
        ensures apart { IfOk result (λ rows. HasNoClash (hashed_in catalog.now (hashes_of H.function) (N.names names.now) window.now.window.now (entry_of self.now))) }
        ensures collision { IfCollides result (IsLeastClash (hashed_in catalog.now (hashes_of H.function) (N.names names.now) window.now.window.now (entry_of self.now))) }
        ensures follow { IfOk result (λ rows. Follow (entry_of self.now).rows rows) }
        ensures stamped { IfOk result (λ rows. AreOfLoad window.now.window.now.load rows) }
    {
        match self {
            Table::Hub { hub, rows } => {
                hub_rows(alloc, *hub, rows, window, kept, catalog, digest)
            }
            Table::Link { link, rows } => {
                link_rows(alloc, *link, rows, names, window, kept, catalog, digest)
            }
            Table::Sat { feed, rows } => {
                let extract = extract_of::<H>(catalog, window, *feed);
                Ok(rows.additions(window.window.load, *feed, extract, catalog, digest)?)
            }
            Table::Multi { feed, rows } => {
                let extract = extract_of::<H>(catalog, window, *feed);
                Ok(rows.additions(window.window.load, *feed, extract, catalog, digest)?)
            }
            Table::Status { feed, rows } => {
                let extract = extract_of::<H>(catalog, window, *feed);
                Ok(rows.additions(window.window.load, *feed, extract, catalog)?)
            }
            Table::Effect { feed, rows } => {
                let extract = extract_of::<H>(catalog, window, *feed);
                Ok(rows.additions(window.window.load, *feed, extract, catalog)?)
            }
        }
    }

    /// Makes room for so many more rows. The rows stay as they are, also for want of memory.
    pub(crate) fn reserve(&mut self, more: u64) -> Result<(), Memory>
        ensures rows { entry_of self.new ≡ entry_of self.old }
        ensures room { OnOk result (more ≤ spare_of self.new) }
    {
        match self {
            Table::Hub { rows, .. } => rows.reserve(more),
            Table::Link { rows, .. } => rows.reserve(more),
            Table::Sat { rows, .. } => rows.reserve(more),
            Table::Multi { rows, .. } => rows.reserve(more),
            Table::Status { rows, .. } => rows.reserve(more),
            Table::Effect { rows, .. } => rows.reserve(more),
        }
    }

    /// Appends rows, which may stand behind those of the table, and for which there is room. Takes no memory.
    pub(crate) fn apply(&mut self, more: Rows)
        requires room { row_count more ≤ spare_of self.old }
        requires follow { Follow (entry_of self.old).rows more }
        ensures { entry_of self.new ≡ record { table = (entry_of self.old).table; rows = rows_then (entry_of self.old).rows more } }
    {
        match self {
            Table::Hub { rows, .. } => rows.append(more),
            Table::Link { rows, .. } => rows.append(more),
            Table::Sat { rows, .. } => rows.append(more),
            Table::Multi { rows, .. } => rows.append(more),
            Table::Status { rows, .. } => rows.append(more),
            Table::Effect { rows, .. } => rows.append(more),
        }
    }
}
