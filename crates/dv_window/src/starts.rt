// The start of an office: over a mapping, and over a keeper that has one.
ghost use Rattle.std.specs.Prelude.{◌≡◌, ◌≤◌, IfOk, IfSome, IsErrOf, IsTrue, None, Some, false};
ghost use Rattle.dv_text.specs.Causes.{Rose};
ghost use Rattle.dv_text.specs.Keys.{Hashes, hashes_of};
ghost use Rattle.dv_text.specs.Told.{Told};
ghost use Rattle.dv_catalog.specs.Entries.{Mapping};
ghost use Rattle.dv_records.specs.declared.answers.Damage.{Damage};
ghost use Rattle.dv_records.specs.declared.stores.Store.{Store};
ghost use Rattle.dv_records.specs.Standing.{Stands};
ghost use Rattle.dv_records.specs.States.{State, beginning};
ghost use Rattle.dv_store_rules.specs.SnapshotHeads.{KeepLimits};
ghost use Rattle.dv_vault.specs.Additions.{Fits};
ghost use Rattle.dv_restore.specs.Damages.{IsFirstDamage, IsInForm, IsNamedBySome};
ghost use Rattle.dv_restore.specs.Restored.{are_in_order};
ghost use Rattle.dv_restore.specs.declared.faults.StoreFault.TheVariants as unread;
ghost use Rattle.dv_window.specs.Offices.{Agrees, StandsFor};

use crate::offices::Office;
use dv_catalog::Catalog;
use dv_records::Keeper;
use dv_restore::{Restored, StartFault, read_store, stored_mapping};
use dv_text::{KeyDigest, List, Memory};
use dv_vault::Vault;
use std::alloc::Global;

impl Office {
    /// The office of no windows, by a mapping, for digests of so many bytes. It stands for the
    /// beginning: a snapshot of it is refused as `Future`, without a last date.
    pub fn begin(alloc: Global, catalog: Catalog, width: u8) -> Result<Office, Memory>
        ensures mapping { IfOk result (λ office. office.vault.mapping ≡ catalog) }
        ensures stands { IfOk result (λ office. (hashes : Hashes) → StandsFor hashes beginning office) }
        ensures fresh { IfOk result (λ office. office.stale ≡ false) }
        ensures width { IfOk result (λ office. office.width ≡ width) }
    {
        let vault = Vault::empty(alloc, catalog)?;
        Ok(Office {
            vault,
            begun: None,
            snapshots: List::new(alloc),
            stale: false,
            width,
        })
    }

    /// The office of what is read of a store.
    pub(crate) fn of_restored(restored: Restored, width: u8) -> Office
        requires taken { IfSome restored.begun (Fits restored.vault) }
        requires limits { KeepLimits restored.snapshots }
        requires order { IsTrue (are_in_order restored.vault.heads) }
        ensures { result ≡ record { vault = restored.vault; begun = restored.begun; snapshots = restored.snapshots; stale = false; width = width } }
    {
        Office {
            vault: restored.vault,
            begun: restored.begun,
            snapshots: restored.snapshots,
            stale: false,
            width,
        }
    }

    /// The office over a keeper, whose store is read whole. `NoMapping` comes exactly where no mapping is stored.
    /// `Damaged` names the first row of the store that breaks a rule of form, and its first rule: exactly where one
    /// does, so never where the store stands for a state; and over a keeper that tells nothing, a place and a rule that
    /// there may be. `KeeperFault` comes only where the keeper's count of faults rose. The store is as before.
    ///
    /// Over a store that has a mapping and nothing else it is an office of no windows; over one
    /// that has nothing the answer is `NoMapping`.
    pub fn start<K: Keeper, H: KeyDigest>(
        alloc: Global,
        keeper: &mut K,
        digest: &H,
    ) -> Result<Office, StartFault>
        ensures stands { IfOk result (λ office. (state : State) → (store : Store) → K.store keeper.old ≡ Some store → Stands office.vault.mapping (hashes_of H.function) state store → StandsFor (hashes_of H.function) state office) }
        ensures fresh { IfOk result (λ office. office.stale ≡ false) }
        ensures width { IfOk result (λ office. office.width ≡ H.function.width) }
        ensures agrees { IfOk result (λ office. Told (K.store keeper.new) (Agrees office)) }
        ensures in_form { IfOk result (λ office. Told (K.store keeper.old) (IsInForm (hashes_of H.function) H.function.width office.vault.mapping)) }
        ensures none { IsErrOf result StartFault.NoMapping → Told (K.store keeper.old) (λ s. s.mapping ≡ None) }
        ensures damaged { (damage : Damage) → IsErrOf result (StartFault.Unread (unread.Damaged damage)) → Told (K.store keeper.old) (λ s. IsFirstDamage (hashes_of H.function) H.function.width s damage) }
        ensures undamaged { (damage : Damage) → IsErrOf result (StartFault.Unread (unread.Damaged damage)) → (mapping : Mapping) → (state : State) → (store : Store) → K.store keeper.old ≡ Some store → Stands mapping (hashes_of H.function) state store → ⊥ }
        ensures formed { (damage : Damage) → IsErrOf result (StartFault.Unread (unread.Damaged damage)) → IsNamedBySome damage }
        ensures store { K.store keeper.new ≡ K.store keeper.old }
        ensures cause { IsErrOf result (StartFault.Unread unread.KeeperFault) → Rose (K.faults keeper.old) (K.faults keeper.new) }
        ensures later { K.faults keeper.old ≤ K.faults keeper.new }
    {
        let Some(catalog) = stored_mapping(alloc, keeper)? else {
            return Err(StartFault::NoMapping);
        };
        let restored = read_store(alloc, keeper, catalog, digest)?;
        Ok(Office::of_restored(restored, digest.width()))
    }
}
