// The vault of the sealed windows, and the open one, if it has a place in the vault as it is stored.
ghost use Rattle.std.specs.Option.{option_to_list};
ghost use Rattle.std.specs.Prelude.{◌≡◌, ◌↔◌, ◌++◌, ◌∷◌, [], IfOk, IfSome, IsErrOf, IsTrue, None, false, length, map, not, true};
ghost use Rattle.dv_text.specs.Keys.{hashes_of, key_eq};
ghost use Rattle.dv_records.specs.declared.answers.Damage.{Damage};
ghost use Rattle.dv_records.specs.Outcomes.{full_at};
ghost use Rattle.dv_records.specs.RowViews.{are_up_to};
ghost use Rattle.dv_records.specs.States.{head_of, is_window};
ghost use Rattle.dv_records.specs.Weights.{tables_weight};
ghost use Rattle.dv_store_rules.specs.StoredHeads.{head_flaw, is_stage};
ghost use Rattle.dv_vault.specs.Additions as weights;
ghost use Rattle.dv_vault.specs.Additions.{Fits, FollowAll, all_added};
ghost use Rattle.dv_vault.specs.Vaults.{IsVaultOf, entries_of, entry_of};
ghost use Rattle.dv_restore.specs.Begins.{AreNamed, HasMisnamed, HasPlace, HaveNoZeroLinks, IsMisnamed, IsNamed, broken_window};
ghost use Rattle.dv_restore.specs.Completions.{IsBegunAs, MayGoOn, rows_there};
ghost use Rattle.dv_restore.specs.Parts.{are_loaded};
ghost use Rattle.dv_restore.specs.Readings.{AreInForm};
ghost use Rattle.dv_restore.specs.Sealed.{sealed_vault, vault_of};

use crate::faults::StoreFault;
use crate::parts::in_parts;
use crate::restored::Reopened;
use dv_catalog::Catalog;
use dv_hub_link::{HubTable, missing_key};
use dv_records::{Damage, Rows};
use dv_text::{Digest, Key, KeyDigest, List, Memory, Text, Window, WindowHead};
use dv_vault::{AdditionFault, Begun, RawTables, Table, Vault, weight_with};
use dv_window_rules::full;
use std::alloc::Global;

// The rule F15 is broken.
fn broken(alloc: Global) -> Result<StoreFault, Memory>
    ensures { IfOk result (λ fault. fault ≡ StoreFault.Damaged broken_window) }
{
    let table = Text::of(alloc, b"stage")?;
    Ok(StoreFault::Damaged(Damage {
        table,
        row: 1,
        rule: 15,
    }))
}

// Whether a vault that weighs so much has no room for these windows and one more.
fn is_full(weight: u64, heads: &[WindowHead]) -> Result<bool, Memory>
    ensures { IfOk result (λ full. IsTrue full ↔ (full_at weight (length heads.now) ≡ None → ⊥)) }
{
    let windows = u32::try_from(heads.len()).map_err(|_| Memory)?;
    Ok(full(u128::from(weight), u64::from(windows)).is_some())
}

// Whether a key is another one.
fn is_other(key: &Key, other: &Key) -> bool
    ensures { result ≡ not (key_eq key.now other.now) }
{
    *key != *other
}

// Whether another key than the missing one stands under a digest in a hub.
fn is_misnamed(
    alloc: Global,
    catalog: &Catalog,
    hub: u32,
    rows: &HubTable,
    d: &Digest,
) -> Result<bool, Memory>
    ensures misnamed { IfOk result (λ is. is ≡ true → IsMisnamed catalog.now d.now hub rows.now.rows) }
    ensures named { IfOk result (λ is. is ≡ false → IsNamed catalog.now d.now hub rows.now.rows) }
{
    match rows.key(d) {
        Some(key) => Ok(is_other(key, &missing_key(alloc, catalog, hub)?)),
        None => Ok(false),
    }
}

// Whether another key than the missing one stands under a digest in a table, if it is a hub.
fn is_misnamed_in(
    alloc: Global,
    catalog: &Catalog,
    table: &Table,
    d: &Digest,
) -> Result<bool, Memory>
    ensures misnamed { IfOk result (λ is. is ≡ true → HasMisnamed catalog.now d.now (entry_of table.now ∷ [])) }
    ensures named { IfOk result (λ is. is ≡ false → AreNamed catalog.now d.now (entry_of table.now ∷ [])) }
{
    match table {
        Table::Hub { hub, rows } => is_misnamed(alloc, catalog, *hub, rows, d),
        _ => Ok(false),
    }
}

// Whether another key than the missing one stands under a digest in some hub.
fn has_misnamed(
    alloc: Global,
    catalog: &Catalog,
    tables: &[Table],
    d: &Digest,
) -> Result<bool, Memory>
    ensures misnamed { IfOk result (λ has. has ≡ true → HasMisnamed catalog.now d.now (map entry_of tables.now)) }
    ensures named { IfOk result (λ has. has ≡ false → AreNamed catalog.now d.now (map entry_of tables.now)) }
{
    for table in tables {
        if is_misnamed_in(alloc, catalog, table, d)? {
            return Ok(true);
        }
    }
    Ok(false)
}

// The rows of a window that tables lack, and what all weigh with them.
#[derive(Drop)]
struct Completion {
    rest: List<Rows>,
    weight: u64,
}

// What tables lack of a window, which has a place in the vault that they are, with all their rows.
fn lacking<H: KeyDigest>(
    catalog: &Catalog,
    heads: &List<WindowHead>,
    raw: &RawTables,
    window: &Window,
    weight: u64,
    digest: &H,
) -> Result<Completion, StoreFault>
    requires tables { IsVaultOf catalog.now (entries_of raw.now) }
    requires dated { IsTrue (are_up_to window.now.load (entries_of raw.now)) }
    requires window { IsTrue (is_window catalog.now window.now) }
    requires weight { weight ≡ tables_weight (entries_of raw.now) }
    requires links { HaveNoZeroLinks H.function.width (entries_of raw.now) }
    ensures rest { IfOk result (λ made. made.rest ≡ all_added (hashes_of H.function) (vault_of catalog.now heads.now (entries_of raw.now)) window.now) }
    ensures follow { IfOk result (λ made. FollowAll window.now.load (entries_of raw.now) made.rest) }
    ensures weight { IfOk result (λ made. made.weight ≡ weights.weight_with (hashes_of H.function) (vault_of catalog.now heads.now (entries_of raw.now)) window.now) }
    ensures place { IfOk result (λ made. HasPlace (hashes_of H.function) (vault_of catalog.now heads.now (entries_of raw.now)) window.now) }
    ensures damaged { (damage : Damage) → IsErrOf result (StoreFault.Damaged damage) → (damage ≡ broken_window) × (HasPlace (hashes_of H.function) (vault_of catalog.now heads.now (entries_of raw.now)) window.now → ⊥) }
    ensures sound { IsErrOf result StoreFault.KeeperFault → ⊥ }
{
    let alloc = heads.allocator();
    let rest = match raw.added(alloc, catalog, window, digest) {
        Ok(rest) => rest,
        Err(AdditionFault::Collision { .. }) => return Err(broken(alloc)?),
        Err(AdditionFault::Memory) => return Err(StoreFault::Memory),
    };
    if has_misnamed(alloc, catalog, &raw.tables, &Digest::zero(digest.width()))? {
        return Err(broken(alloc)?);
    }
    let weight = weight_with(weight, rest.items())?;
    if is_full(weight, heads.items())? {
        return Err(broken(alloc)?);
    }
    Ok(Completion { rest, weight })
}

// The vault of the sealed windows, and the open one over it, where tables have rows of both.
fn reopened<H: KeyDigest>(
    catalog: Catalog,
    heads: List<WindowHead>,
    window: Window,
    tables: Vec<Table>,
    weight: u64,
    digest: &H,
) -> Result<Reopened, StoreFault>
    requires heads { head_flaw catalog heads ≡ None }
    requires stage { IsTrue (is_stage catalog heads window) }
    requires ids { IsVaultOf catalog (map entry_of tables.items) }
    requires weight { weight ≡ tables_weight (map entry_of tables.items) }
    requires loaded { IsTrue (are_loaded (heads ++ head_of window ∷ []) (map entry_of tables.items)) }
    requires links { HaveNoZeroLinks H.function.width (map entry_of tables.items) }
    ensures vault { IfOk result (λ restored. restored.vault ≡ sealed_vault catalog heads (Some window) (map entry_of tables.items)) }
    ensures taken { IfOk result (λ restored. IfSome restored.begun (Fits restored.vault)) }
    ensures begun { IfOk result (λ restored. IsBegunAs (hashes_of H.function) restored.vault (Some window) restored.begun) }
    ensures entries { IfOk result (λ restored. map entry_of tables.items ≡ rows_there restored.vault restored.begun) }
    ensures goes_on { IfOk result (λ restored. MayGoOn (hashes_of H.function) (vault_of catalog heads (map entry_of tables.items)) (Some window)) }
    ensures damaged { (damage : Damage) → IsErrOf result (StoreFault.Damaged damage) → (damage ≡ broken_window) × (MayGoOn (hashes_of H.function) (vault_of catalog heads (map entry_of tables.items)) (Some window) → ⊥) }
    ensures sound { IsErrOf result StoreFault.KeeperFault → ⊥ }
{
    let alloc = heads.allocator();
    let raw = RawTables { tables };
    let made = lacking(&catalog, &heads, &raw, &window, weight, digest)?;
    let parts = in_parts(alloc, raw.tables, window.load, weight)?;
    let vault = Vault::from_tables(catalog, parts.sealed, heads, parts.weight);
    let begun = Begun::of(alloc, window, parts.opened, made.rest, made.weight)?;
    Ok(Reopened {
        vault,
        begun: Some(begun),
    })
}

/// The vault of the sealed windows, and the open one with what tables lack of it; or the damage of the open window, where
/// it has no place in the vault as it is stored. Conditions: the heads break no rule of form, and nor does the open window; these are the tables of
/// the mapping, which weigh so much, and no row of them breaks one.
pub(crate) fn restored<H: KeyDigest>(
    catalog: Catalog,
    heads: List<WindowHead>,
    stage: Option<Window>,
    tables: Vec<Table>,
    weight: u64,
    digest: &H,
) -> Result<Reopened, StoreFault>
    requires heads { head_flaw catalog heads ≡ None }
    requires stage { IfSome stage (λ window. IsTrue (is_stage catalog heads window)) }
    requires ids { IsVaultOf catalog (map entry_of tables.items) }
    requires weight { weight ≡ tables_weight (map entry_of tables.items) }
    requires clear { AreInForm (record { mapping = catalog; hashes = hashes_of H.function; width = H.function.width; heads = heads ++ map head_of (option_to_list stage); tables = [] }) (map entry_of tables.items) }
    ensures vault { IfOk result (λ restored. restored.vault ≡ sealed_vault catalog heads stage (map entry_of tables.items)) }
    ensures taken { IfOk result (λ restored. IfSome restored.begun (Fits restored.vault)) }
    ensures begun { IfOk result (λ restored. IsBegunAs (hashes_of H.function) restored.vault stage restored.begun) }
    ensures entries { IfOk result (λ restored. map entry_of tables.items ≡ rows_there restored.vault restored.begun) }
    ensures goes_on { IfOk result (λ restored. MayGoOn (hashes_of H.function) (vault_of catalog heads (map entry_of tables.items)) stage) }
    ensures damaged { (damage : Damage) → IsErrOf result (StoreFault.Damaged damage) → (damage ≡ broken_window) × (MayGoOn (hashes_of H.function) (vault_of catalog heads (map entry_of tables.items)) stage → ⊥) }
    ensures sound { IsErrOf result StoreFault.KeeperFault → ⊥ }
{
    if let Some(window) = stage {
        return reopened(catalog, heads, window, tables, weight, digest);
    }
    let vault = Vault::from_tables(catalog, tables, heads, weight);
    Ok(Reopened { vault, begun: None })
}
