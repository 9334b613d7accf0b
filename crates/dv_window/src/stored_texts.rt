// The text of a stored table of a snapshot.
ghost use Rattle.std.specs.Prelude.{◌≡◌, ◌↔◌, ◌≤◌, IfOk, IsErrOf, None, Some, false};
ghost use Rattle.dv_text.specs.Causes.{Rose};
ghost use Rattle.dv_text.specs.Keys.{Hashes};
ghost use Rattle.dv_text.specs.Told.{Told};
ghost use Rattle.dv_records.specs.declared.answers.Damage.{Damage};
ghost use Rattle.dv_records.specs.declared.stores.Store.{Store};
ghost use Rattle.dv_records.specs.States.{State};
ghost use Rattle.dv_window.specs.StoredRows as rows;
ghost use Rattle.dv_window.specs.StoredTexts as spec;
ghost use Rattle.dv_window.specs.Offices.{IsIn, made_stale};

use crate::bridge_forms::bridge_form;
use crate::damages::damaged;
use crate::offices::Office;
use crate::pages::{Read, read_rows};
use crate::pit_forms::pit_form;
use crate::snapshot_queries::{SnapshotQuery, asked_of, head_at};
use crate::stored::StoredFault;
use dv_catalog::Catalog;
use dv_print::{bridge_text, pit_text};
use dv_records::{Keeper, SnapId};
use dv_text::{Stamp, Text};
use std::alloc::Global;

// The text of the rows that are asked for, where digests have so many bytes, or the damage that the
// first flawed one shows.
fn asked_text<K: Keeper>(
    alloc: Global,
    catalog: &Catalog,
    width: u8,
    keeper: &mut K,
    asked: &SnapshotQuery,
) -> Result<Text, StoredFault>
    requires { spec.HasTable catalog.now asked.now.id }
    ensures text { IfOk result (λ text. Told (K.store keeper.old) (λ s. spec.IsTextOf catalog.now width asked.now s.snapshots text)) }
    ensures damaged { (damage : Damage) → IsErrOf result (StoredFault.Damaged damage) → Told (K.store keeper.old) (λ s. spec.IsDamageOf catalog.now width asked.now s.snapshots damage) }
    ensures formed { (damage : Damage) → IsErrOf result (StoredFault.Damaged damage) → spec.IsRowOf catalog.now asked.now.id damage }
    ensures stored { IsErrOf result StoredFault.NoSnapshot → ⊥ }
    ensures kept { K.store keeper.new ≡ K.store keeper.old }
    ensures cause { IsErrOf result StoredFault.KeeperFault → Rose (K.faults keeper.old) (K.faults keeper.new) }
    ensures later { K.faults keeper.old ≤ K.faults keeper.new }
{
    match asked.id {
        SnapId::Pit(hub) => {
            match read_rows(alloc, keeper, asked, &pit_form(catalog, width, hub))? {
                Read::Rows(rows) => Ok(pit_text(alloc, catalog, hub, asked.date, rows.items())?),
                Read::Flawed { row } => Err(damaged(alloc, catalog, asked.id, row)),
            }
        }
        SnapId::Bridge(path) => {
            match read_rows(alloc, keeper, asked, &bridge_form(catalog, width, path))? {
                Read::Rows(rows) => {
                    let path = catalog.path(path);
                    Ok(bridge_text(alloc, catalog, path, asked.date, rows.items())?)
                }
                Read::Flawed { row } => Err(damaged(alloc, catalog, asked.id, row)),
            }
        }
    }
}

/// The text of a table in the snapshot that is stored at a date: of a hub's point-in-time table, or
/// of a path's bridge. Its rows are read from the keeper, from the first on, until they end or are
/// as many as the snapshot's head says; in a store that stands for a state that the office is in
/// they are the whole table.
///
/// `NoSnapshot`, the rule Q5, comes exactly where no snapshot is stored at the date. `Damaged`
/// comes exactly where one of the rows is of another kind than the table's, has a digest of another
/// width than the office's, or is a point-in-time row with another number of cells than the hub has
/// feeds, or a bridge row with another number of link digests than the path has feeds, or of hub
/// digests than the links of these have hubs together. It names the first such row, counted from 1,
/// the table, `pit_H` or `bridge_P`, and the rule F4; it never comes where the store stands for a
/// state that the office is in, by digests of the office's width. `KeeperFault` comes only where
/// the keeper's count of faults rose, and leaves the office stale; else the office is as before.
/// The store is as before. Conditions: the office isn't stale, and the mapping has the hub or the
/// path.
///
/// The table of a hub with the feeds `customers` and `accounts` has the header
/// `hash_key,snapshot,customers.load,customers.present,accounts.load,accounts.present`, and a line
/// for each key behind it.
pub fn stored_text<K: Keeper>(
    alloc: Global,
    office: &mut Office,
    keeper: &mut K,
    id: SnapId,
    date: Stamp,
) -> Result<Text, StoredFault>
    requires fresh { office.old.stale ≡ false }
    requires table { spec.HasTable office.old.vault.mapping id }
    ensures absent { IsErrOf result StoredFault.NoSnapshot ↔ (rows.head_at date office.old.snapshots ≡ None) }
    ensures text { IfOk result (λ text. Told (K.store keeper.old) (λ s. spec.IsStoredText office.old id date s.snapshots text)) }
    ensures damaged { (damage : Damage) → IsErrOf result (StoredFault.Damaged damage) → Told (K.store keeper.old) (λ s. spec.IsStoredDamage office.old id date s.snapshots damage) }
    ensures formed { (damage : Damage) → IsErrOf result (StoredFault.Damaged damage) → spec.IsRowOf office.old.vault.mapping id damage }
    ensures state { IfOk result (λ text. (hashes : Hashes) (state : State) (store : Store) → K.store keeper.old ≡ Some store → IsIn hashes state office.old (Some store) → text ≡ spec.table_text office.old.vault.mapping hashes state.sealed id date) }
    ensures undamaged { (damage : Damage) → IsErrOf result (StoredFault.Damaged damage) → spec.AreInNoState office.old (K.store keeper.old) }
    ensures stale { IsErrOf result StoredFault.KeeperFault → office.new ≡ made_stale office.old }
    ensures left { (IsErrOf result StoredFault.KeeperFault → ⊥) → office.new ≡ office.old }
    ensures kept { K.store keeper.new ≡ K.store keeper.old }
    ensures cause { IsErrOf result StoredFault.KeeperFault → Rose (K.faults keeper.old) (K.faults keeper.new) }
    ensures later { K.faults keeper.old ≤ K.faults keeper.new }
{
    let Some(head) = head_at(office.snapshots().items(), date) else {
        return Err(StoredFault::NoSnapshot);
    };
    let asked = asked_of(id, head);
    let text = asked_text(alloc, office.catalog(), office.width(), keeper, &asked);
    if matches!(text, Err(StoredFault::KeeperFault)) {
        office.mark_stale();
    }
    text
}
