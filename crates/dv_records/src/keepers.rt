ghost use Rattle.std.specs.Prelude.{◌≡◌, ◌<◌, ℕ, Option, None, map, IfOk, IsTrue};
ghost use Rattle.dv_text.specs.Told.{Told};
ghost use Rattle.dv_records.specs.declared.stores.Store.{Store};
ghost use Rattle.dv_records.specs.Stores.{is_new_snapshot, is_of_kind, is_well_formed, page, rows_in, snapshot_rows, with_mapping, with_rows, with_seal, with_snapshot, with_stage, IsStagedAt};
ghost use Rattle.dv_records.specs.Changes.{Changes, KeeperCause};

use crate::snapshots::{SnapHead, SnapId, SnapTable};
use crate::stores::{Rows, Store};
use dv_catalog::TableId;
use dv_text::{List, Stamp, Text, Window, WindowHead};
use std::alloc::Global;

/// Why a call of a keeper was not Ok: it failed, or memory ran out.
#[derive(Clone, Copy, Debug, PartialEq, Eq)]
pub enum KeeperError {
    Failed,
    Memory,
}

/// What keeps a store for good. Reading calls leave the store. A changing call that is Ok makes its one
/// change; one that failed made it or didn't; for want of memory it made none. `Failed` comes only where
/// the count of faults rose.
pub trait Keeper {
    /// The store, where the keeper tells it.
    ghost store: { Self → Option Store };

    /// How often it has failed.
    ghost faults: { Self → ℕ };

    /// The mapping file's bytes, if one is stored.
    fn mapping(&mut self, alloc: Global) -> Result<Option<Text>, KeeperError>
        ensures told { IfOk result (λ mapping. Told (store self.old) (λ s. mapping ≡ s.mapping)) }
        ensures kept { store self.new ≡ store self.old }
        ensures cause { KeeperCause (faults self.old) (faults self.new) result };

    /// Stores the mapping file's bytes, where none are stored. Of a store with nothing in it the
    /// bytes `m` make one that has the mapping `m` and nothing else.
    fn put_mapping(&mut self, alloc: Global, text: &Text) -> Result<(), KeeperError>
        requires { Told (store self.old) (λ s. s.mapping ≡ None) }
        ensures change { Changes (with_mapping text.now) (store self.old) (store self.new) result }
        ensures cause { KeeperCause (faults self.old) (faults self.new) result };

    /// The heads of the sealed windows, in order.
    fn windows(&mut self, alloc: Global) -> Result<List<WindowHead>, KeeperError>
        ensures told { IfOk result (λ windows. Told (store self.old) (λ s. windows ≡ s.windows)) }
        ensures kept { store self.new ≡ store self.old }
        ensures cause { KeeperCause (faults self.old) (faults self.new) result };

    /// The open window, if there is one.
    fn stage(&mut self, alloc: Global) -> Result<Option<Window>, KeeperError>
        ensures told { IfOk result (λ stage. Told (store self.old) (λ s. stage ≡ s.stage)) }
        ensures kept { store self.new ≡ store self.old }
        ensures cause { KeeperCause (faults self.old) (faults self.new) result };

    /// Opens a window, where none is open. A store of three tables has the window open after this,
    /// and the same tables.
    fn put_stage(&mut self, alloc: Global, window: &Window) -> Result<(), KeeperError>
        requires { Told (store self.old) (λ s. s.stage ≡ None) }
        ensures change { Changes (with_stage window.now) (store self.old) (store self.new) result }
        ensures cause { KeeperCause (faults self.old) (faults self.new) result };

    /// Rows of a table: at most `most` of them, from place `from` on, and fewer only at the end. Of
    /// `a`, `b`, `c` and `d` the two from place 1 on are `b` and `c`.
    fn rows(
        &mut self,
        alloc: Global,
        table: TableId,
        from: u64,
        most: u32,
    ) -> Result<Rows, KeeperError>
        requires { 0 < most }
        ensures told { IfOk result (λ rows. Told (store self.old) (λ s. rows ≡ page from most (rows_in table s.tables))) }
        ensures kept { store self.new ≡ store self.old }
        ensures cause { KeeperCause (faults self.old) (faults self.new) result };

    /// Puts rows at the end of a table. They, and the rows that it has, are of the table's kind. A
    /// table that has `a` has `a`, `b` and `c` once `b` and `c` are put there.
    fn append(&mut self, alloc: Global, table: TableId, rows: &Rows) -> Result<(), KeeperError>
        requires given { IsTrue (is_of_kind table rows.now) }
        requires stored { Told (store self.old) (λ s. IsTrue (is_of_kind table (rows_in table s.tables))) }
        ensures change { Changes (with_rows table rows.now) (store self.old) (store self.new) result }
        ensures cause { KeeperCause (faults self.old) (faults self.new) result };

    /// Seals the open window, which has this head's load date: records the head, and closes the
    /// window. Behind a sealed window of 1 March that of 2 March is sealed then, and none is open.
    fn seal(&mut self, alloc: Global, head: &WindowHead) -> Result<(), KeeperError>
        requires { Told (store self.old) (λ s. IsStagedAt head.now.load s.stage) }
        ensures change { Changes (with_seal head.now) (store self.old) (store self.new) result }
        ensures cause { KeeperCause (faults self.old) (faults self.new) result };

    /// The heads of the stored snapshots, by date.
    fn snapshots(&mut self, alloc: Global) -> Result<List<SnapHead>, KeeperError>
        ensures told { IfOk result (λ heads. Told (store self.old) (λ s. heads ≡ map (λ snap. snap.head) s.snapshots)) }
        ensures kept { store self.new ≡ store self.old }
        ensures cause { KeeperCause (faults self.old) (faults self.new) result };

    /// Stores a snapshot at a date at which none is stored, with no table twice. One of 2 March
    /// stands between those of 1 and 3 March.
    fn put_snapshot(
        &mut self,
        alloc: Global,
        head: &SnapHead,
        tables: &List<SnapTable>,
    ) -> Result<(), KeeperError>
        requires { Told (store self.old) (λ s. IsTrue (is_new_snapshot (record { head = head.now; tables = tables.now }) s.snapshots)) }
        ensures change { Changes (with_snapshot (record { head = head.now; tables = tables.now })) (store self.old) (store self.new) result }
        ensures cause { KeeperCause (faults self.old) (faults self.new) result };

    /// Rows of a table of the snapshot at a date: at most `most` of them, from place `from` on, and
    /// fewer only at the end. A table without an entry, or a date without a snapshot, has none.
    /// Where the snapshot of 1 March has `a`, `b`, `c` and `d` in a table, the two from place 1 on
    /// are `b` and `c`; of 2 March, without a snapshot, there are none.
    fn snapshot_rows(
        &mut self,
        alloc: Global,
        date: Stamp,
        id: SnapId,
        from: u64,
        most: u32,
    ) -> Result<Rows, KeeperError>
        requires { 0 < most }
        ensures told { IfOk result (λ rows. Told (store self.old) (λ s. rows ≡ page from most (snapshot_rows date id s.snapshots))) }
        ensures kept { store self.new ≡ store self.old }
        ensures cause { KeeperCause (faults self.old) (faults self.new) result };

    ghost well_formed: { (keeper : Self) → Told (store keeper) (λ s. IsTrue (is_well_formed s)) };
}
