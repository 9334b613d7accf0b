ghost use Rattle.dv_laws.specs.Standing.{BrokenStands, InitLeaves, SnapshotIsNew, SnapshotKeepsForm, SnapshotStands, StandingSound, StoredStands};

/// A fresh store in which a mapping is stored stands for the mapping that its file is read as, and the
/// beginning, whatever the hashes; where the storing broke off it does so, or is fresh. A store that stands for
/// a state is left as it is.
pub fn mappings_stored()
    ensures stored { StoredStands }
    ensures broken { BrokenStands }
    ensures leaves { InitLeaves }
{}

/// A store that stands for a state, with the snapshot at a date that is not refused, stands for the state with
/// the date. The snapshot is new there, and a new snapshot leaves a store well formed.
pub fn snapshots_stored()
    ensures stands { SnapshotStands }
    ensures new { SnapshotIsNew }
    ensures form { SnapshotKeepsForm }
{}

/// A store that stands for a state of the warehouse has no damage: its sealed windows, its open window, the rows of
/// its raw tables and its snapshots break none of the rules of form F2 to F14, also while a window is open.
pub fn standing_stores_are_sound()
    ensures { StandingSound }
{}
