// The completion of an open window.
ghost use Rattle.std.specs.Prelude.{◌≡◌, ◌≤◌, None, false, true};
ghost use Rattle.dv_text.specs.Causes.{Rose};
ghost use Rattle.dv_text.specs.Keys.{Hashes, hashes_of};
ghost use Rattle.dv_text.specs.Told.{Told};
ghost use Rattle.dv_records.specs.declared.answers.Damage.{Damage};
ghost use Rattle.dv_records.specs.States.{State};
ghost use Rattle.dv_restore.specs.Damages.{IsNamed};
ghost use Rattle.dv_window.specs.Offices.{AgreesUnlessStale, CompletesTo, IsDamageFor, IsIn, LeavesStill, StaleThen, StandsFor};

use crate::offices::Office;
use crate::stops::{resume_answer, unresumed};
use dv_records::{Keeper, ResumeAnswer};
use dv_text::KeyDigest;

impl Office {
    // Completes the open window of an office that isn't stale.
    fn resume_fresh<K: Keeper>(&mut self, keeper: &mut K) -> ResumeAnswer
        requires fresh { self.old.stale ≡ false }
        requires agrees { AgreesUnlessStale self.old (K.store keeper.old) }
        ensures step { (hashes : Hashes) (state : State) → IsIn hashes state self.old (K.store keeper.old) → CompletesTo self.old.vault.mapping hashes state result self.new (K.store keeper.new) }
        ensures answer { (hashes : Hashes) (state : State) → StandsFor hashes state self.old → CompletesTo self.old.vault.mapping hashes state result self.new None }
        ensures kept { result ≡ ResumeAnswer.NothingOpen → self.new ≡ self.old }
        ensures agrees { AgreesUnlessStale self.new (K.store keeper.new) }
        ensures mapping { self.new.vault.mapping ≡ self.old.vault.mapping }
        ensures width { self.new.width ≡ self.old.width }
        ensures stale { StaleThen result self.old.stale self.new.stale }
        ensures store { LeavesStill result (K.store keeper.old) (K.store keeper.new) }
        ensures undamaged { (damage : Damage) → result ≡ ResumeAnswer.Damaged damage → ⊥ }
        ensures cause { result ≡ ResumeAnswer.KeeperFault → Rose (K.faults keeper.old) (K.faults keeper.new) }
        ensures later { K.faults keeper.old ≤ K.faults keeper.new }
    {
        match self.complete(keeper) {
            Some(completed) => resume_answer(completed),
            None => ResumeAnswer::NothingOpen,
        }
    }

    /// Completes the open window: appends the rows of it that the keeper hasn't, and seals it.
    /// `NothingOpen` comes exactly where none is open, and leaves an office that isn't stale as it
    /// is. `Loaded` gives the number of rows that the window adds to all tables, whichever call
    /// appended them. A stale office is refreshed first, and `Damaged` comes only from there.
    /// `KeeperFault` comes only where the keeper's count of faults rose, and leaves the office
    /// stale. After it, and after `Memory`, the keeper's store stands for the state before, or has
    /// the window sealed. Condition: the keeper's store, where it is told, is what the office
    /// holds, unless this is stale.
    ///
    /// Where the first window is open, with one customer and a name, it is `Loaded` with 3 rows,
    /// and sealed; called once more, it is `NothingOpen`.
    pub fn resume<K: Keeper, H: KeyDigest>(&mut self, keeper: &mut K, digest: &H) -> ResumeAnswer
        requires { AgreesUnlessStale self.old (K.store keeper.old) }
        ensures step { (state : State) → IsIn (hashes_of H.function) state self.old (K.store keeper.old) → CompletesTo self.old.vault.mapping (hashes_of H.function) state result self.new (K.store keeper.new) }
        ensures answer { self.old.stale ≡ false → (state : State) → StandsFor (hashes_of H.function) state self.old → CompletesTo self.old.vault.mapping (hashes_of H.function) state result self.new None }
        ensures kept { self.old.stale ≡ false → result ≡ ResumeAnswer.NothingOpen → self.new ≡ self.old }
        ensures agrees { AgreesUnlessStale self.new (K.store keeper.new) }
        ensures mapping { self.new.vault.mapping ≡ self.old.vault.mapping }
        ensures width { (self.old.stale ≡ false → self.new.width ≡ self.old.width) × (self.old.stale ≡ true → self.new.stale ≡ false → self.new.width ≡ H.function.width) }
        ensures stale { StaleThen result self.old.stale self.new.stale }
        ensures store { LeavesStill result (K.store keeper.old) (K.store keeper.new) }
        ensures damaged { (damage : Damage) → result ≡ ResumeAnswer.Damaged damage → Told (K.store keeper.old) (λ s. IsDamageFor self.old.vault.mapping (hashes_of H.function) H.function.width s damage) }
        ensures undamaged { (damage : Damage) → result ≡ ResumeAnswer.Damaged damage → (state : State) → IsIn (hashes_of H.function) state self.old (K.store keeper.old) → ⊥ }
        ensures formed { (damage : Damage) → result ≡ ResumeAnswer.Damaged damage → IsNamed self.old.vault.mapping damage }
        ensures cause { result ≡ ResumeAnswer.KeeperFault → Rose (K.faults keeper.old) (K.faults keeper.new) }
        ensures later { K.faults keeper.old ≤ K.faults keeper.new }
    {
        if let Err(fault) = self.refresh(keeper, digest) {
            return unresumed(fault);
        }
        self.resume_fresh(keeper)
    }
}
