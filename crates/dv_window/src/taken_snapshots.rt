// The storing of a snapshot.
ghost use Rattle.std.specs.Prelude.{◌≡◌, ◌≤◌, false};
ghost use Rattle.dv_text.specs.Causes.{Rose};
ghost use Rattle.dv_text.specs.Keys.{Hashes};
ghost use Rattle.dv_bridge.specs.ZeroKeys.{HasZeroKeys};
ghost use Rattle.dv_records.specs.States.{State};
ghost use Rattle.dv_window.specs.SnapSteps.{LeavesBoth, SnapsInStates, SnapsTo, StaleAfter};
ghost use Rattle.dv_window.specs.Offices.{AgreesUnlessStale, IsIn};
ghost use Rattle.dv_window.specs.Snapshots.{MayKeep};

use crate::offices::Office;
use crate::snapshot_plans::{Planned, plan};
use dv_records::{Keeper, KeeperError, Snap, SnapAnswer};
use dv_text::Stamp;
use std::alloc::Global;

// Gives a snapshot to the keeper.
fn keep<K: Keeper>(office: &mut Office, keeper: &mut K, snap: &Snap) -> SnapAnswer
    requires fresh { office.old.stale ≡ false }
    requires agrees { AgreesUnlessStale office.old (K.store keeper.old) }
    requires may { MayKeep office.old.snapshots snap.now }
    ensures step { SnapsInStates office.old (K.store keeper.old) snap.now result office.new (K.store keeper.new) }
    ensures kept { LeavesBoth result office.old office.new (K.store keeper.old) (K.store keeper.new) }
    ensures agrees { AgreesUnlessStale office.new (K.store keeper.new) }
    ensures mapping { office.new.vault.mapping ≡ office.old.vault.mapping }
    ensures width { office.new.width ≡ office.old.width }
    ensures stale { StaleAfter result office.new.stale }
    ensures cause { result ≡ SnapAnswer.KeeperFault → Rose (K.faults keeper.old) (K.faults keeper.new) }
    ensures later { K.faults keeper.old ≤ K.faults keeper.new }
{
    match office.keep_snapshot(keeper, &snap.head, &snap.tables) {
        Ok(()) => SnapAnswer::Stored {
            rows: snap.head.rows,
        },
        Err(KeeperError::Failed) => SnapAnswer::KeeperFault,
        Err(KeeperError::Memory) => SnapAnswer::Memory,
    }
}

/// Stores the snapshot of the sealed windows at a date: the point-in-time table of each hub and the
/// bridge of each path, by one call of the keeper.
///
/// The first that holds is answered: `Future`, where the date is later than the last sealed load
/// date, or none is sealed; `Repeated`, where a snapshot is stored at the date; `TooLarge`, where
/// some first steps of a path give more than 1,000,000 rows, with the first such path; `Full`,
/// where the stored ones and this one weigh more than 268,435,456 together, which it tells, or
/// 1,000 are stored. These, and `Memory`, leave the office and the keeper's store as they are.
/// `Stored` gives the number of rows of all tables. `KeeperFault` comes only where the keeper's
/// count of faults rose, and leaves the office stale; the store is then as before, or has the
/// snapshot. What is said of a state is said of one whose missing keys have the zero key.
/// Conditions: the office isn't stale, and the keeper's store, where it is told, is what the office
/// holds.
///
/// Where windows of 1 and 2 March have brought three customers, one at 2 March is `Stored` with 3
/// rows, and one more at 2 March is `Repeated`. Where the only window is of 1 March, one at the
/// beginning of 2030 is `Future`, with 1 March as the last date.
pub fn snapshot<K: Keeper>(
    alloc: Global,
    office: &mut Office,
    keeper: &mut K,
    date: Stamp,
) -> SnapAnswer
    requires fresh { office.old.stale ≡ false }
    requires agrees { AgreesUnlessStale office.old (K.store keeper.old) }
    ensures step { (hashes : Hashes) (state : State) → HasZeroKeys hashes → IsIn hashes state office.old (K.store keeper.old) → SnapsTo office.old.vault.mapping hashes state date result office.new (K.store keeper.new) }
    ensures kept { LeavesBoth result office.old office.new (K.store keeper.old) (K.store keeper.new) }
    ensures agrees { AgreesUnlessStale office.new (K.store keeper.new) }
    ensures mapping { office.new.vault.mapping ≡ office.old.vault.mapping }
    ensures width { office.new.width ≡ office.old.width }
    ensures stale { StaleAfter result office.new.stale }
    ensures cause { result ≡ SnapAnswer.KeeperFault → Rose (K.faults keeper.old) (K.faults keeper.new) }
    ensures later { K.faults keeper.old ≤ K.faults keeper.new }
{
    match plan(alloc, office.vault(), office.snapshots().items(), date) {
        Ok(Planned::New(snap)) => keep(office, keeper, &snap),
        Ok(Planned::Refused(answer)) => answer,
        Err(_memory) => SnapAnswer::Memory,
    }
}
