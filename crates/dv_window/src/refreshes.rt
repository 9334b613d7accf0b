// A stale office is refreshed: what its keeper has is read again.
ghost use Rattle.std.specs.Prelude.{◌≡◌, ◌≤◌, ◌⊎◌, IfOk, IsErrOf, Ok, OnErr, OnOk, false, true};
ghost use Rattle.dv_text.specs.Causes.{Rose};
ghost use Rattle.dv_text.specs.Keys.{hashes_of};
ghost use Rattle.dv_text.specs.Told.{Told};
ghost use Rattle.dv_records.specs.declared.answers.Damage.{Damage};
ghost use Rattle.dv_records.specs.States.{State};
ghost use Rattle.dv_restore.specs.Damages.{IsInForm, IsNamed, IsNotRead, IsReadAs, mapping_damage as spec_damage};
ghost use Rattle.dv_window.specs.Offices.{AgreesUnlessStale, IsDamageFor, IsIn, IsOtherMapping};

use crate::offices::Office;
use dv_catalog::Catalog;
use dv_records::Keeper;
use dv_restore::{StoreFault, mapping_damage, read_store, stored_mapping};
use dv_text::KeyDigest;

impl Office {
    // The office is another one.
    fn change_to(&mut self, office: Office)
        ensures { self.new ≡ office }
    {
        *self = office;
    }

    // The mapping of the office, read from its keeper again. One that is gone, or another one, is damage.
    fn same_mapping<K: Keeper>(&self, keeper: &mut K) -> Result<Catalog, StoreFault>
        ensures same { IfOk result (λ catalog. catalog ≡ self.now.vault.mapping) }
        ensures read { IfOk result (λ catalog. Told (K.store keeper.old) (IsReadAs catalog)) }
        ensures damaged { (damage : Damage) → IsErrOf result (StoreFault.Damaged damage) → Told (K.store keeper.old) (λ s. IsOtherMapping self.now.vault.mapping s damage ⊎ IsNotRead s damage) }
        ensures formed { (damage : Damage) → IsErrOf result (StoreFault.Damaged damage) → damage ≡ spec_damage }
        ensures store { K.store keeper.new ≡ K.store keeper.old }
        ensures cause { IsErrOf result StoreFault.KeeperFault → Rose (K.faults keeper.old) (K.faults keeper.new) }
        ensures later { K.faults keeper.old ≤ K.faults keeper.new }
    {
        let alloc = self.allocator();
        let Some(catalog) = stored_mapping(alloc, keeper)? else {
            return Err(StoreFault::Damaged(mapping_damage(alloc)?));
        };
        if !catalog.same(self.catalog()) {
            return Err(StoreFault::Damaged(mapping_damage(alloc)?));
        }
        Ok(catalog)
    }

    /// Reads the keeper again, where the office is stale; then it isn't stale, and the store breaks no rule of form. A
    /// mapping that is gone, or another one, is damage of the mapping (F1), and no other rule is asked then. `Damaged` and `KeeperFault` come else as from `start`. With an error the office is as before. The
    /// store is as before.
    ///
    /// Where a load was answered `KeeperFault`, and the keeper sealed its window all the same, the
    /// office has this window among the sealed ones then.
    pub fn refresh<K: Keeper, H: KeyDigest>(
        &mut self,
        keeper: &mut K,
        digest: &H,
    ) -> Result<(), StoreFault>
        requires { AgreesUnlessStale self.old (K.store keeper.old) }
        ensures fresh { OnOk result (self.new.stale ≡ false) }
        ensures kept { OnErr result (self.new ≡ self.old) }
        ensures still { self.old.stale ≡ false → (result ≡ Ok tt) × (self.new ≡ self.old) }
        ensures mapping { self.new.vault.mapping ≡ self.old.vault.mapping }
        ensures width { (self.old.stale ≡ false → self.new.width ≡ self.old.width) × (self.old.stale ≡ true → self.new.stale ≡ false → self.new.width ≡ H.function.width) }
        ensures agrees { AgreesUnlessStale self.new (K.store keeper.new) }
        ensures in_form { self.old.stale ≡ true → OnOk result (Told (K.store keeper.old) (IsInForm (hashes_of H.function) H.function.width self.new.vault.mapping)) }
        ensures stands { (state : State) → IsIn (hashes_of H.function) state self.old (K.store keeper.old) → OnOk result (IsIn (hashes_of H.function) state self.new (K.store keeper.new)) }
        ensures damaged { (damage : Damage) → IsErrOf result (StoreFault.Damaged damage) → Told (K.store keeper.old) (λ s. IsDamageFor self.old.vault.mapping (hashes_of H.function) H.function.width s damage) }
        ensures undamaged { (damage : Damage) → IsErrOf result (StoreFault.Damaged damage) → (state : State) → IsIn (hashes_of H.function) state self.old (K.store keeper.old) → ⊥ }
        ensures formed { (damage : Damage) → IsErrOf result (StoreFault.Damaged damage) → IsNamed self.old.vault.mapping damage }
        ensures store { K.store keeper.new ≡ K.store keeper.old }
        ensures cause { IsErrOf result StoreFault.KeeperFault → Rose (K.faults keeper.old) (K.faults keeper.new) }
        ensures later { K.faults keeper.old ≤ K.faults keeper.new }
    {
        if !self.stale {
            return Ok(());
        }
        // The mapping first: rows under another one would be held to rules that are not theirs.
        let catalog = self.same_mapping(keeper)?;
        let alloc = self.allocator();
        let restored = read_store(alloc, keeper, catalog, digest)?;
        self.change_to(Office::of_restored(restored, digest.width()));
        Ok(())
    }
}
