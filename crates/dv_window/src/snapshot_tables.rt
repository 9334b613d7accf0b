// The tables of a snapshot.
ghost use Rattle.std.specs.Prelude.{◌≡◌, ◌<◌, ◌++◌, ℕ, IfOk, IsErrOf, IsTrue, List as list_of, None, OnOk, Some, false, length, true};
ghost use Rattle.dv_text.specs.declared.rows.Window.{Window};
ghost use Rattle.dv_text.specs.Keys.{Hashes};
ghost use Rattle.dv_bridge.specs.ZeroKeys.{HasZeroKeys};
ghost use Rattle.dv_bridge.specs.Paths.{is_path_too_large};
ghost use Rattle.dv_records.specs.Snapshots.{snap_tables};
ghost use Rattle.dv_records.specs.Stores.{are_snap_tables_apart};
ghost use Rattle.dv_vault.specs.Vaults.{HasSealed};
ghost use Rattle.dv_window.specs.declared.snapshot_tables.TablesFault.TheVariants.{TooLarge};
ghost use Rattle.dv_window.specs.SnapshotTables as spec;

use dv_bridge::{BridgeFault, bridge_rows};
use dv_pit::pit_rows;
use dv_records::{Rows, SnapId, SnapTable};
use dv_text::{List, Memory, Stamp};
use dv_vault::Vault;
use std::alloc::Global;

/// Why there are no tables of a snapshot.
#[derive(Clone, Copy)]
pub(crate) enum TablesFault {
    /// Some first steps of the path give too many rows: the rule Q3.
    TooLarge { path: u32 },
    /// Memory ran out.
    Memory,
}

impl From<Memory> for TablesFault {
    ghost use Rattle.std.specs.Prelude.{◌≡◌};
    ghost use Rattle.dv_window.specs.declared.snapshot_tables.TablesFault.TheVariants as variants;

    ghost from_gives = { λ _ fault. fault ≡ variants.Memory };

    fn from(_error: Memory) -> TablesFault {
        TablesFault::Memory
    }
}

// The point-in-time table of each hub, in declared order.
fn pit_tables(alloc: Global, vault: &Vault, date: Stamp) -> Result<List<SnapTable>, Memory>
    ensures tables { IfOk result (λ tables. (hashes : Hashes) (sealed : list_of Window) → HasSealed hashes sealed vault.now → tables ≡ spec.pit_tables vault.now.mapping hashes sealed date) }
    ensures ids { IfOk result (λ tables. spec.ids_of tables ≡ spec.pit_ids (length vault.now.mapping.hubs)) }
{
    let mut tables = List::new(alloc);
    for hub in 0..vault.catalog().hub_count() {
        let rows = pit_rows(alloc, vault, hub, date)?;
        tables.push(SnapTable {
            id: SnapId::Pit(hub),
            rows: Rows::Pits(rows),
        })?;
    }
    Ok(tables)
}

// The bridge of a path.
fn bridge_table(
    alloc: Global,
    vault: &Vault,
    path: u32,
    date: Stamp,
) -> Result<SnapTable, TablesFault>
    requires { path < length vault.now.mapping.paths }
    ensures table { IfOk result (λ table. (hashes : Hashes) (sealed : list_of Window) → HasZeroKeys hashes → HasSealed hashes sealed vault.now → table ≡ spec.bridge_table vault.now.mapping hashes sealed date path) }
    ensures id { IfOk result (λ table. table.id ≡ SnapId.Bridge path) }
    ensures fits { IfOk result (λ table. (hashes : Hashes) (sealed : list_of Window) → HasZeroKeys hashes → HasSealed hashes sealed vault.now → is_path_too_large vault.now.mapping sealed path date ≡ false) }
    ensures too_large { (at : ℕ) → IsErrOf result (TooLarge at) → (at ≡ path) × ((hashes : Hashes) (sealed : list_of Window) → HasZeroKeys hashes → HasSealed hashes sealed vault.now → is_path_too_large vault.now.mapping sealed path date ≡ true) }
{
    match bridge_rows(alloc, vault, path, date) {
        Ok(rows) => Ok(SnapTable {
            id: SnapId::Bridge(path),
            rows: Rows::Bridges(rows),
        }),
        Err(BridgeFault::TooLarge) => Err(TablesFault::TooLarge { path }),
        Err(BridgeFault::Memory) => Err(TablesFault::Memory),
    }
}

// Puts the bridge of each path, in declared order, behind other tables. `TooLarge` has the first
// path of which some first steps give too many rows.
fn push_bridges(
    alloc: Global,
    vault: &Vault,
    date: Stamp,
    tables: &mut List<SnapTable>,
) -> Result<(), TablesFault>
    ensures tables { OnOk result ((hashes : Hashes) (sealed : list_of Window) → HasZeroKeys hashes → HasSealed hashes sealed vault.now → tables.new ≡ tables.old ++ spec.bridge_tables vault.now.mapping hashes sealed date) }
    ensures ids { OnOk result (spec.ids_of tables.new ≡ spec.ids_of tables.old ++ spec.bridge_ids (length vault.now.mapping.paths)) }
    ensures fits { OnOk result ((hashes : Hashes) (sealed : list_of Window) → HasZeroKeys hashes → HasSealed hashes sealed vault.now → spec.first_large vault.now.mapping sealed date ≡ None) }
    ensures too_large { (path : ℕ) → IsErrOf result (TooLarge path) → (hashes : Hashes) (sealed : list_of Window) → HasZeroKeys hashes → HasSealed hashes sealed vault.now → spec.first_large vault.now.mapping sealed date ≡ Some path }
{
    for path in 0..vault.catalog().path_count() {
        tables.push(bridge_table(alloc, vault, path, date)?)?;
    }
    Ok(())
}

/// The tables of the snapshot of a vault at a date: the point-in-time table of each hub, then the
/// bridge of each path, in declared order. `TooLarge` comes exactly where some first steps of a
/// path give too many rows, and has the first such path.
pub(crate) fn snapshot_tables(
    alloc: Global,
    vault: &Vault,
    date: Stamp,
) -> Result<List<SnapTable>, TablesFault>
    ensures snapshot { IfOk result (λ tables. (hashes : Hashes) (sealed : list_of Window) → HasZeroKeys hashes → HasSealed hashes sealed vault.now → tables ≡ snap_tables vault.now.mapping hashes sealed date) }
    ensures apart { IfOk result (λ tables. IsTrue (are_snap_tables_apart tables)) }
    ensures fits { IfOk result (λ tables. (hashes : Hashes) (sealed : list_of Window) → HasZeroKeys hashes → HasSealed hashes sealed vault.now → spec.first_large vault.now.mapping sealed date ≡ None) }
    ensures too_large { (path : ℕ) → IsErrOf result (TooLarge path) → (hashes : Hashes) (sealed : list_of Window) → HasZeroKeys hashes → HasSealed hashes sealed vault.now → spec.first_large vault.now.mapping sealed date ≡ Some path }
{
    let mut tables = pit_tables(alloc, vault, date)?;
    push_bridges(alloc, vault, date, &mut tables)?;
    Ok(tables)
}
