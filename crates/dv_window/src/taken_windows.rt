// A window is given to the keeper and to the vault, or broken off.
ghost use Rattle.std.specs.Prelude.{◌≡◌, ◌≤◌, IfNone, IfSome, IsSome, IsTrue, None, false};
ghost use Rattle.dv_text.specs.Told.{Told};
ghost use Rattle.dv_records.specs.Changes.{KeeperCause};
ghost use Rattle.dv_vault.specs.Additions.{Fits};
ghost use Rattle.dv_vault.specs.Keeping.{IsBegunIn};
ghost use Rattle.dv_catalog.specs.Mappings.{is_valid};
ghost use Rattle.dv_window.specs.Offices.{AgreesUnlessStale};
ghost use Rattle.dv_window.specs.Stopping as spec;
ghost use Rattle.dv_window.specs.TakenWindows.{CompletesAs, TookOrBroke};

use crate::offices::Office;
use dv_records::{Keeper, KeeperError};
use dv_vault::Begun;

/// Whether a keeper failed.
pub(crate) fn is_failed(error: KeeperError) -> bool
    ensures { result ≡ spec.is_failed error }
{
    error == KeeperError::Failed
}

impl Office {
    /// Gives a window to the keeper and to the vault, and answers the number of its rows. `is_open` says whether it is
    /// open. With an error the office has what is left of the window; where the keeper failed it is stale.
    pub(crate) fn carry_out<K: Keeper>(
        &mut self,
        keeper: &mut K,
        is_open: bool,
        begun: Begun,
    ) -> Result<u64, KeeperError>
        requires none { self.old.begun ≡ None }
        requires fits { Fits self.old.vault begun }
        requires told { Told (K.store keeper.old) (IsBegunIn is_open self.old.vault.tables begun) }
        ensures came { TookOrBroke is_open begun self.old self.new (K.store keeper.old) (K.store keeper.new) result }
        ensures stays { IsSome (K.store keeper.old) → IsSome (K.store keeper.new) }
        ensures cause { KeeperCause (K.faults keeper.old) (K.faults keeper.new) result }
    {
        let rows = begun.rows;
        let Err(untaken) = self.vault.take(keeper, is_open, begun) else {
            return Ok(rows);
        };
        self.stale = is_failed(untaken.error);
        self.begun = untaken.begun;
        Err(untaken.error)
    }

    /// Completes the open window: the number of its rows in all tables; none where no window is open.
    pub(crate) fn complete<K: Keeper>(&mut self, keeper: &mut K) -> Option<Result<u64, KeeperError>>
        requires fresh { self.old.stale ≡ false }
        requires agrees { AgreesUnlessStale self.old (K.store keeper.old) }
        ensures none { IfNone result ((self.old.begun ≡ None) × (self.new ≡ self.old) × (K.store keeper.new ≡ K.store keeper.old)) }
        ensures some { IfSome result (CompletesAs self.old self.new (K.store keeper.old) (K.store keeper.new)) }
        ensures stays { IsSome (K.store keeper.old) → IsSome (K.store keeper.new) }
        ensures valid_mapping { IsTrue (is_valid self.old.vault.mapping) }
        ensures cause { IfSome result (KeeperCause (K.faults keeper.old) (K.faults keeper.new)) }
        ensures later { K.faults keeper.old ≤ K.faults keeper.new }
    {
        self.note_valid();
        let begun = self.begun.take()?;
        Some(self.carry_out(keeper, true, begun))
    }
}
