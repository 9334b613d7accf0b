// The load of a window.
ghost use Rattle.std.specs.Prelude.{◌≡◌, ◌≤◌, IsSome, None, false, true};
ghost use Rattle.dv_text.specs.Causes.{Rose};
ghost use Rattle.dv_text.specs.Keys.{hashes_of};
ghost use Rattle.dv_text.specs.Told.{Told};
ghost use Rattle.dv_records.specs.declared.answers.Damage.{Damage};
ghost use Rattle.dv_records.specs.States.{State};
ghost use Rattle.dv_restore.specs.Damages.{IsNamed};
ghost use Rattle.dv_window.specs.Offices.{AgreesUnlessStale, IsDamageFor, IsIn, LeavesOffice, LeavesStore, StaleAfter, StandsFor, StepsTo};

use crate::offices::Office;
use crate::plans::Planned;
use crate::stops::{load_answer, unrefreshed};
use dv_catalog::WindowIn;
use dv_crew::Order;
use dv_outside::Gate;
use dv_records::{Keeper, LoadAnswer};
use dv_text::KeyDigest;
use std::thread::Threads;

impl Office {
    // Loads a window into an office that isn't stale.
    fn load_fresh<R: Threads + Sync, K: Keeper, H: KeyDigest, G: Gate>(
        &mut self,
        rt: &R,
        keeper: &mut K,
        given: &WindowIn,
        workers: u32,
        order: Order,
        digest: &H,
        gate: &G,
    ) -> LoadAnswer
        requires fresh { self.old.stale ≡ false }
        requires agrees { AgreesUnlessStale self.old (K.store keeper.old) }
        requires workers { (1 ≤ workers) × (workers ≤ 64) }
        ensures step { (state : State) → IsIn (hashes_of H.function) state self.old (K.store keeper.old) → StepsTo self.old.vault.mapping (hashes_of H.function) state given.now result self.new (K.store keeper.new) }
        ensures answer { (state : State) → StandsFor (hashes_of H.function) state self.old → StepsTo self.old.vault.mapping (hashes_of H.function) state given.now result self.new None }
        ensures kept { LeavesOffice result self.old self.new }
        ensures agrees { AgreesUnlessStale self.new (K.store keeper.new) }
        ensures mapping { self.new.vault.mapping ≡ self.old.vault.mapping }
        ensures width { self.new.width ≡ self.old.width }
        ensures stale { StaleAfter result self.old.stale self.new.stale }
        ensures store { LeavesStore result (K.store keeper.old) (K.store keeper.new) }
        ensures stays { IsSome (K.store keeper.old) → IsSome (K.store keeper.new) }
        ensures undamaged { (damage : Damage) → result ≡ LoadAnswer.Damaged damage → ⊥ }
        ensures cause { result ≡ LoadAnswer.KeeperFault → Rose (K.faults keeper.old) (K.faults keeper.new) }
        ensures later { K.faults keeper.old ≤ K.faults keeper.new }
    {
        match self.plan(rt, given, workers, order, digest, gate) {
            Ok(Planned::New(begun)) => load_answer(self.carry_out(keeper, false, begun)),
            Ok(Planned::Open) => match self.complete(keeper) {
                Some(completed) => load_answer(completed),
                None => unreachable!(),
            },
            Err(stop) => LoadAnswer::from(stop),
        }
    }

    /// Loads a window: decides what comes of it, gives it to the keeper, and adds it to the vault.
    /// The window that is open, given again, is completed; any other is refused then. A stale
    /// office is refreshed first.
    ///
    /// `Refused` names the first rule that the window breaks, and `Repeated` says that it is a
    /// sealed one again; both leave the keeper's store as it is, and an office that isn't stale.
    /// Such an office answers by each state that it stands for, also where its keeper tells
    /// nothing. `Damaged` comes only from the refresh, as there. `Loaded` gives the number of rows
    /// that the window adds to all tables, whichever call appended them. `KeeperFault` comes only
    /// where the keeper's count of faults rose, and leaves the office stale. After it, and after
    /// `Memory`, the keeper's store stands for the state before, or has this window open, or has it
    /// sealed. All memory that the window needs is taken before the store changes. Conditions: the
    /// keeper's store, where it is told, is what the office holds, unless this is stale; and 1 to 64
    /// workers.
    ///
    /// So many workers, one of them on this thread, stage the extracts and work out what the window
    /// adds to the tables. `order` is that in which the tasks of the tables are begun, and `gate` is
    /// passed before and after each of them. Neither workers nor order nor gate change what comes of
    /// the window: no clause depends on them. `Memory` comes where any worker ran out of it.
    ///
    /// Into an office of no windows, with a feed of keys and names, the window of 1 March with the
    /// extract `CUST_NO,NAME\n1,abc\n` is `Loaded` with 3 rows: one each of the hub, of the
    /// satellite and of the status table. Given again it is `Repeated`. A window without extracts
    /// is `Refused`, by the rule `NoExtracts`.
    pub fn load<R: Threads + Sync, K: Keeper, H: KeyDigest, G: Gate>(
        &mut self,
        rt: &R,
        keeper: &mut K,
        given: &WindowIn,
        workers: u32,
        order: Order,
        digest: &H,
        gate: &G,
    ) -> LoadAnswer
        requires agrees { AgreesUnlessStale self.old (K.store keeper.old) }
        requires workers { (1 ≤ workers) × (workers ≤ 64) }
        ensures step { (state : State) → IsIn (hashes_of H.function) state self.old (K.store keeper.old) → StepsTo self.old.vault.mapping (hashes_of H.function) state given.now result self.new (K.store keeper.new) }
        ensures answer { self.old.stale ≡ false → (state : State) → StandsFor (hashes_of H.function) state self.old → StepsTo self.old.vault.mapping (hashes_of H.function) state given.now result self.new None }
        ensures kept { self.old.stale ≡ false → LeavesOffice result self.old self.new }
        ensures agrees { AgreesUnlessStale self.new (K.store keeper.new) }
        ensures mapping { self.new.vault.mapping ≡ self.old.vault.mapping }
        ensures width { (self.old.stale ≡ false → self.new.width ≡ self.old.width) × (self.old.stale ≡ true → self.new.stale ≡ false → self.new.width ≡ H.function.width) }
        ensures stale { StaleAfter result self.old.stale self.new.stale }
        ensures store { LeavesStore result (K.store keeper.old) (K.store keeper.new) }
        ensures stays { IsSome (K.store keeper.old) → IsSome (K.store keeper.new) }
        ensures damaged { (damage : Damage) → result ≡ LoadAnswer.Damaged damage → Told (K.store keeper.old) (λ s. IsDamageFor self.old.vault.mapping (hashes_of H.function) H.function.width s damage) }
        ensures undamaged { (damage : Damage) → result ≡ LoadAnswer.Damaged damage → (state : State) → IsIn (hashes_of H.function) state self.old (K.store keeper.old) → ⊥ }
        ensures formed { (damage : Damage) → result ≡ LoadAnswer.Damaged damage → IsNamed self.old.vault.mapping damage }
        ensures cause { result ≡ LoadAnswer.KeeperFault → Rose (K.faults keeper.old) (K.faults keeper.new) }
        ensures later { K.faults keeper.old ≤ K.faults keeper.new }
    {
        if let Err(fault) = self.refresh(keeper, digest) {
            return unrefreshed(fault);
        }
        self.load_fresh(rt, keeper, given, workers, order, digest, gate)
    }
}
