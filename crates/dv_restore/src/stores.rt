// The store of a keeper behind its mapping.
ghost use Rattle.std.specs.Option.{option_map_or, option_to_list};
ghost use Rattle.std.specs.Prelude.{◌≡◌, ◌≤◌, ◌++◌, IfOk, IfSome, IsErrOf, IsTrue, List, None, Some, map, true};
ghost use Rattle.dv_text.specs.Causes.{Rose};
ghost use Rattle.dv_text.specs.Keys.{hashes_of};
ghost use Rattle.dv_text.specs.Told.{Told};
ghost use Rattle.dv_catalog.specs.Entries.{Mapping};
ghost use Rattle.dv_records.specs.declared.answers.Damage.{Damage as Damaged};
ghost use Rattle.dv_records.specs.declared.stores.Store.{Store};
ghost use Rattle.dv_records.specs.Standing.{Stands};
ghost use Rattle.dv_records.specs.States.{State, head_of};
ghost use Rattle.dv_store_rules.specs.Damages as damages;
ghost use Rattle.dv_store_rules.specs.Damages.{damage_at};
ghost use Rattle.dv_store_rules.specs.SnapshotHeads.{KeepLimits, snapshot_flaw, snapshot_heads};
ghost use Rattle.dv_store_rules.specs.StoredHeads as spec;
ghost use Rattle.dv_vault.specs.Additions.{Fits};
ghost use Rattle.dv_restore.specs.Completions.{IsBegunAs};
ghost use Rattle.dv_restore.specs.Damages.{BreaksRule, IsInForm, IsNamed};
ghost use Rattle.dv_restore.specs.Restored.{HasKept, IsOfState, are_in_order};

use crate::completions::restored;
use crate::faults::StoreFault;
use crate::readings::read_tables;
use crate::restored::Restored;
use dv_catalog::Catalog;
use dv_records::{Damage, Keeper, SnapHead};
use dv_store_rules::{Flaw, head_flaw, is_stage, snapshot_flaw};
use dv_text::{Duplicate, KeyDigest, List, Memory, Text, Window, WindowHead};
use dv_vault::head;
use std::alloc::Global;

// A flaw of what stands before the raw tables, or behind them.
fn damage(alloc: Global, table: &[u8], flaw: Flaw) -> Result<Damage, Memory>
    ensures { IfOk result (λ damage. damage ≡ damage_at table.now flaw) }
{
    let table = Text::of(alloc, table)?;
    Ok(Damage {
        table,
        row: flaw.row,
        rule: flaw.rule,
    })
}

// The heads of the sealed windows, all in form.
fn stored_heads<K: Keeper>(
    alloc: Global,
    keeper: &mut K,
    catalog: &Catalog,
) -> Result<List<WindowHead>, StoreFault>
    ensures told { IfOk result (λ heads. Told (K.store keeper.old) (λ s. heads ≡ s.windows)) }
    ensures clear { IfOk result (λ made. spec.head_flaw catalog.now made ≡ None) }
    ensures damaged { (damage : Damaged) → IsErrOf result (StoreFault.Damaged damage) → Told (K.store keeper.old) (λ s. damages.head_damage catalog.now s ≡ Some damage) }
    ensures formed { (damage : Damaged) → IsErrOf result (StoreFault.Damaged damage) → IsNamed catalog.now damage }
    ensures store { K.store keeper.new ≡ K.store keeper.old }
    ensures cause { IsErrOf result StoreFault.KeeperFault → Rose (K.faults keeper.old) (K.faults keeper.new) }
    ensures later { K.faults keeper.old ≤ K.faults keeper.new }
{
    let heads = keeper.windows(alloc)?;
    match head_flaw(catalog, heads.items()) {
        Some(flaw) => Err(StoreFault::Damaged(damage(alloc, b"windows", flaw)?)),
        None => Ok(heads),
    }
}

// Whether the open window, if there is one, is in form.
fn is_in_form(
    catalog: &Catalog,
    heads: &[WindowHead],
    stage: &Option<Window>,
) -> Result<bool, Memory>
    ensures { IfOk result (λ whole. whole ≡ option_map_or (λ window. spec.is_stage catalog.now heads.now window) stage.now true) }
{
    match stage {
        Some(window) => is_stage(catalog, heads, window),
        None => Ok(true),
    }
}

// The open window, in form, if there is one, behind sealed windows with these heads.
fn stored_stage<K: Keeper>(
    alloc: Global,
    keeper: &mut K,
    catalog: &Catalog,
    heads: &[WindowHead],
) -> Result<Option<Window>, StoreFault>
    ensures told { IfOk result (λ stage. Told (K.store keeper.old) (λ s. stage ≡ s.stage)) }
    ensures in_form { IfOk result (λ stage. IfSome stage (λ window. IsTrue (spec.is_stage catalog.now heads.now window))) }
    ensures damaged { (damage : Damaged) → IsErrOf result (StoreFault.Damaged damage) → Told (K.store keeper.old) (λ s. s.windows ≡ heads.now → damages.stage_damage catalog.now s ≡ Some damage) }
    ensures formed { (damage : Damaged) → IsErrOf result (StoreFault.Damaged damage) → IsNamed catalog.now damage }
    ensures store { K.store keeper.new ≡ K.store keeper.old }
    ensures cause { IsErrOf result StoreFault.KeeperFault → Rose (K.faults keeper.old) (K.faults keeper.new) }
    ensures later { K.faults keeper.old ≤ K.faults keeper.new }
{
    let stage = keeper.stage(alloc)?;
    if is_in_form(catalog, heads, &stage)? {
        return Ok(stage);
    }
    let flaw = Flaw { row: 1, rule: 3 };
    Err(StoreFault::Damaged(damage(alloc, b"stage", flaw)?))
}

// The heads of the snapshots, all in form, behind sealed windows with these heads.
fn stored_snapshots<K: Keeper>(
    alloc: Global,
    keeper: &mut K,
    heads: &[WindowHead],
) -> Result<List<SnapHead>, StoreFault>
    ensures told { IfOk result (λ snapshots. Told (K.store keeper.old) (λ s. snapshots ≡ snapshot_heads s)) }
    ensures clear { IfOk result (λ snapshots. snapshot_flaw heads.now snapshots ≡ None) }
    ensures damaged { (damage : Damaged) → IsErrOf result (StoreFault.Damaged damage) → Told (K.store keeper.old) (λ s. s.windows ≡ heads.now → damages.snapshot_damage s ≡ Some damage) }
    ensures formed { (damage : Damaged) → IsErrOf result (StoreFault.Damaged damage) → (mapping : Mapping) → IsNamed mapping damage }
    ensures store { K.store keeper.new ≡ K.store keeper.old }
    ensures cause { IsErrOf result StoreFault.KeeperFault → Rose (K.faults keeper.old) (K.faults keeper.new) }
    ensures later { K.faults keeper.old ≤ K.faults keeper.new }
{
    let snapshots = keeper.snapshots(alloc)?;
    match snapshot_flaw(heads, snapshots.items()) {
        Some(flaw) => Err(StoreFault::Damaged(damage(alloc, b"snapshots", flaw)?)),
        None => Ok(snapshots),
    }
}

// The heads of the sealed windows, and behind them that of the open one, if there is one.
fn all_heads(
    alloc: Global,
    heads: &List<WindowHead>,
    stage: &Option<Window>,
) -> Result<List<WindowHead>, Memory>
    ensures { IfOk result (λ all. all ≡ heads.now ++ map head_of (option_to_list stage.now)) }
{
    let mut all = heads.copy()?;
    if let Some(window) = stage {
        all.push(head(alloc, window)?)?;
    }
    Ok(all)
}

/// Reads the store of a keeper whose mapping is this: the sealed windows, the open one, the raw tables in table order,
/// each in pages, and the heads of the snapshots. `Damaged` comes exactly where a row breaks a rule of form, with the first such row and its
/// first rule; so never where the store stands for a state; and over a keeper that tells nothing it names a place of a
/// store of the mapping. `KeeperFault` comes only where the keeper's count of faults rose. The store is as before.
pub fn read_store<K: Keeper, H: KeyDigest>(
    alloc: Global,
    keeper: &mut K,
    catalog: Catalog,
    digest: &H,
) -> Result<Restored, StoreFault>
    ensures mapping { IfOk result (λ restored. restored.vault.mapping ≡ catalog) }
    ensures kept { IfOk result (λ restored. Told (K.store keeper.old) (HasKept restored.vault restored.begun restored.snapshots)) }
    ensures taken { IfOk result (λ restored. IfSome restored.begun (Fits restored.vault)) }
    ensures begun { IfOk result (λ restored. Told (K.store keeper.old) (λ s. IsBegunAs (hashes_of H.function) restored.vault s.stage restored.begun)) }
    ensures in_form { IfOk result (λ restored. Told (K.store keeper.old) (IsInForm (hashes_of H.function) H.function.width catalog)) }
    ensures stands { IfOk result (λ read. (state : State) → (store : Store) → K.store keeper.old ≡ Some store → Stands catalog (hashes_of H.function) state store → IsOfState (hashes_of H.function) state read.vault read.begun read.snapshots) }
    ensures limits { IfOk result (λ restored. KeepLimits restored.snapshots) }
    ensures order { IfOk result (λ restored. IsTrue (are_in_order restored.vault.heads)) }
    ensures damaged { (damage : Damaged) → IsErrOf result (StoreFault.Damaged damage) → Told (K.store keeper.old) (λ s. BreaksRule (hashes_of H.function) H.function.width catalog s damage) }
    ensures undamaged { (damage : Damaged) → IsErrOf result (StoreFault.Damaged damage) → (state : State) → (store : Store) → K.store keeper.old ≡ Some store → Stands catalog (hashes_of H.function) state store → ⊥ }
    ensures formed { (damage : Damaged) → IsErrOf result (StoreFault.Damaged damage) → IsNamed catalog damage }
    ensures store { K.store keeper.new ≡ K.store keeper.old }
    ensures cause { IsErrOf result StoreFault.KeeperFault → Rose (K.faults keeper.old) (K.faults keeper.new) }
    ensures later { K.faults keeper.old ≤ K.faults keeper.new }
{
    let heads = stored_heads(alloc, keeper, &catalog)?;
    let stage = stored_stage(alloc, keeper, &catalog, heads.items())?;
    // Rows of the open window are there too, so its load date is one that rows may have.
    let known = all_heads(alloc, &heads, &stage)?;
    let read = read_tables(alloc, keeper, &catalog, known.items(), digest)?;
    let snapshots = stored_snapshots(alloc, keeper, heads.items())?;
    let reopened = restored(catalog, heads, stage, read.tables, read.weight, digest)?;
    Ok(Restored {
        vault: reopened.vault,
        begun: reopened.begun,
        snapshots,
    })
}
