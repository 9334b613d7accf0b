ghost use Rattle.std.specs.Prelude.{IsTrue};
ghost use Rattle.dv_records.specs.Stores.{is_well_formed};

use crate::appends::append;
use crate::keepers::{Keeper, KeeperError};
use crate::pages::table_page;
use crate::planned_failures::{Fail, PlannedCalls};
use crate::snapshots::{SnapHead, SnapId, SnapTable};
use crate::stored_snapshots::{heads_of, insert, snapshot_page};
use crate::stores::{Rows, Store};
use dv_catalog::TableId;
use dv_text::{Duplicate, List, Memory, Stamp, Text, Window, WindowHead};
use std::alloc::Global;

impl From<Memory> for KeeperError {
    ghost use Rattle.std.specs.Prelude.{◌≡◌};
    ghost use Rattle.dv_records.specs.declared.keepers.KeeperError.TheVariants as variants;

    ghost from_gives = { λ _ e. e ≡ variants.Memory };

    fn from(_error: Memory) -> KeeperError {
        KeeperError::Memory
    }
}

/// A keeper in memory. It fails exactly as planned, and for want of memory it changes nothing.
#[derive(Debug, Drop)]
pub struct MemoryKeeper {
    store: Store,
    plan: PlannedCalls,
    ghost well_formed: { IsTrue (is_well_formed store) },
}

impl MemoryKeeper {
    ghost use Rattle.std.specs.Prelude.{◌≡◌};
    ghost use Rattle.dv_records.specs.PlannedFailures.{new_plan};
    ghost use Rattle.dv_records.specs.MemoryKeepers.{empty_store, keeper_plan, keeper_store};

    /// A keeper of an empty store, with these failures planned. With
    /// `Fail { change: 2, done: true }` its first changing call works, and the second fails, but
    /// makes its change.
    pub fn new(alloc: Global, fails: List<Fail>) -> MemoryKeeper
        ensures store { keeper_store result ≡ empty_store }
        ensures plan { keeper_plan result ≡ new_plan fails }
    {
        let store = Store {
            mapping: None,
            stage: None,
            windows: List::new(alloc),
            tables: List::new(alloc),
            snapshots: List::new(alloc),
        };
        MemoryKeeper {
            store,
            plan: PlannedCalls::new(fails),
        }
    }

    /// A keeper of this store, with these failures planned. No table has two entries in the store,
    /// and an entry without rows has its table's kind. With `Fail { change: 0, done: false }` the
    /// next reading call fails, and the one after it works.
    pub fn with_store(store: Store, fails: List<Fail>) -> MemoryKeeper
        requires { IsTrue (is_well_formed store) }
        ensures store { keeper_store result ≡ store }
        ensures plan { keeper_plan result ≡ new_plan fails }
    {
        MemoryKeeper {
            store,
            plan: PlannedCalls::new(fails),
        }
    }

    /// The store.
    pub fn store(&self) -> &Store
        ensures { result.now ≡ keeper_store self.now }
    {
        &self.store
    }
}

impl Keeper for MemoryKeeper {
    ghost use Rattle.std.specs.Prelude.{◌≡◌, ◌<◌, map, IfOk, None, Some};
    ghost use Rattle.dv_text.specs.Told.{Told};
    ghost use Rattle.dv_records.specs.Stores.{is_new_snapshot, is_of_kind, page, rows_in, snapshot_rows, with_mapping, with_rows, with_seal, with_snapshot, with_stage, IsStagedAt};
    ghost use Rattle.dv_records.specs.Changes.{Changes, KeeperCause};
    ghost use Rattle.dv_records.specs.PlannedFailures.{ReadTurn};
    ghost use Rattle.dv_records.specs.MemoryKeepers.{keeper_plan, keeper_store, told_well_formed, ChangeTurn};

    ghost store = { λ k. Some (keeper_store k) };

    ghost faults = { λ k. (keeper_plan k).faults };

    ghost well_formed = { told_well_formed };

    fn mapping(&mut self, _alloc: Global) -> Result<Option<Text>, KeeperError>
        ensures told { IfOk result (λ mapping. Told (Some (keeper_store self.old)) (λ s. mapping ≡ s.mapping)) }
        ensures kept { Some (keeper_store self.new) ≡ Some (keeper_store self.old) }
        ensures cause { KeeperCause (keeper_plan self.old).faults (keeper_plan self.new).faults result }
        ensures turn { ReadTurn (keeper_plan self.old) (keeper_plan self.new) result }
    {
        self.plan.read()?;
        match &self.store.mapping {
            None => Ok(None),
            Some(text) => Ok(Some(text.copy()?)),
        }
    }

    fn put_mapping(&mut self, _alloc: Global, text: &Text) -> Result<(), KeeperError>
        requires { Told (Some (keeper_store self.old)) (λ s. s.mapping ≡ None) }
        ensures change { Changes (with_mapping text.now) (Some (keeper_store self.old)) (Some (keeper_store self.new)) result }
        ensures cause { KeeperCause (keeper_plan self.old).faults (keeper_plan self.new).faults result }
        ensures turn { ChangeTurn (with_mapping text.now) self.old self.new result }
    {
        let text = text.copy()?;
        let turn = self.plan.next();
        if turn.takes_effect() {
            self.store.mapping = Some(text);
        }
        self.plan.end(turn)
    }

    fn windows(&mut self, _alloc: Global) -> Result<List<WindowHead>, KeeperError>
        ensures told { IfOk result (λ windows. Told (Some (keeper_store self.old)) (λ s. windows ≡ s.windows)) }
        ensures kept { Some (keeper_store self.new) ≡ Some (keeper_store self.old) }
        ensures cause { KeeperCause (keeper_plan self.old).faults (keeper_plan self.new).faults result }
        ensures turn { ReadTurn (keeper_plan self.old) (keeper_plan self.new) result }
    {
        self.plan.read()?;
        Ok(self.store.windows.copy()?)
    }

    fn stage(&mut self, _alloc: Global) -> Result<Option<Window>, KeeperError>
        ensures told { IfOk result (λ stage. Told (Some (keeper_store self.old)) (λ s. stage ≡ s.stage)) }
        ensures kept { Some (keeper_store self.new) ≡ Some (keeper_store self.old) }
        ensures cause { KeeperCause (keeper_plan self.old).faults (keeper_plan self.new).faults result }
        ensures turn { ReadTurn (keeper_plan self.old) (keeper_plan self.new) result }
    {
        self.plan.read()?;
        match &self.store.stage {
            None => Ok(None),
            Some(window) => Ok(Some(window.copy()?)),
        }
    }

    fn put_stage(&mut self, _alloc: Global, window: &Window) -> Result<(), KeeperError>
        requires { Told (Some (keeper_store self.old)) (λ s. s.stage ≡ None) }
        ensures change { Changes (with_stage window.now) (Some (keeper_store self.old)) (Some (keeper_store self.new)) result }
        ensures cause { KeeperCause (keeper_plan self.old).faults (keeper_plan self.new).faults result }
        ensures turn { ChangeTurn (with_stage window.now) self.old self.new result }
    {
        let window = window.copy()?;
        let turn = self.plan.next();
        if turn.takes_effect() {
            self.store.stage = Some(window);
        }
        self.plan.end(turn)
    }

    fn rows(
        &mut self,
        alloc: Global,
        table: TableId,
        from: u64,
        most: u32,
    ) -> Result<Rows, KeeperError>
        requires { 0 < most }
        ensures told { IfOk result (λ rows. Told (Some (keeper_store self.old)) (λ s. rows ≡ page from most (rows_in table s.tables))) }
        ensures kept { Some (keeper_store self.new) ≡ Some (keeper_store self.old) }
        ensures cause { KeeperCause (keeper_plan self.old).faults (keeper_plan self.new).faults result }
        ensures turn { ReadTurn (keeper_plan self.old) (keeper_plan self.new) result }
    {
        self.plan.read()?;
        Ok(table_page(alloc, self.store.tables.items(), table, from, most)?)
    }

    fn append(&mut self, alloc: Global, table: TableId, rows: &Rows) -> Result<(), KeeperError>
        requires given { IsTrue (is_of_kind table rows.now) }
        requires stored { Told (Some (keeper_store self.old)) (λ s. IsTrue (is_of_kind table (rows_in table s.tables))) }
        ensures change { Changes (with_rows table rows.now) (Some (keeper_store self.old)) (Some (keeper_store self.new)) result }
        ensures cause { KeeperCause (keeper_plan self.old).faults (keeper_plan self.new).faults result }
        ensures turn { ChangeTurn (with_rows table rows.now) self.old self.new result }
    {
        let rows = rows.copy()?;
        let turn = self.plan.next();
        if !turn.takes_effect() {
            return self.plan.end(turn);
        }
        append(alloc, &mut self.store.tables, table, rows)?;
        self.plan.end(turn)
    }

    fn seal(&mut self, _alloc: Global, head: &WindowHead) -> Result<(), KeeperError>
        requires { Told (Some (keeper_store self.old)) (λ s. IsStagedAt head.now.load s.stage) }
        ensures change { Changes (with_seal head.now) (Some (keeper_store self.old)) (Some (keeper_store self.new)) result }
        ensures cause { KeeperCause (keeper_plan self.old).faults (keeper_plan self.new).faults result }
        ensures turn { ChangeTurn (with_seal head.now) self.old self.new result }
    {
        let head = head.copy()?;
        let turn = self.plan.next();
        if turn.takes_effect() {
            self.store.windows.push(head)?;
            self.store.stage = None;
        }
        self.plan.end(turn)
    }

    fn snapshots(&mut self, alloc: Global) -> Result<List<SnapHead>, KeeperError>
        ensures told { IfOk result (λ heads. Told (Some (keeper_store self.old)) (λ s. heads ≡ map (λ snap. snap.head) s.snapshots)) }
        ensures kept { Some (keeper_store self.new) ≡ Some (keeper_store self.old) }
        ensures cause { KeeperCause (keeper_plan self.old).faults (keeper_plan self.new).faults result }
        ensures turn { ReadTurn (keeper_plan self.old) (keeper_plan self.new) result }
    {
        self.plan.read()?;
        Ok(heads_of(alloc, self.store.snapshots.items())?)
    }

    fn put_snapshot(
        &mut self,
        alloc: Global,
        head: &SnapHead,
        tables: &List<SnapTable>,
    ) -> Result<(), KeeperError>
        requires { Told (Some (keeper_store self.old)) (λ s. IsTrue (is_new_snapshot (record { head = head.now; tables = tables.now }) s.snapshots)) }
        ensures change { Changes (with_snapshot (record { head = head.now; tables = tables.now })) (Some (keeper_store self.old)) (Some (keeper_store self.new)) result }
        ensures cause { KeeperCause (keeper_plan self.old).faults (keeper_plan self.new).faults result }
        ensures turn { ChangeTurn (with_snapshot (record { head = head.now; tables = tables.now })) self.old self.new result }
    {
        let tables = tables.copy()?;
        let turn = self.plan.next();
        if !turn.takes_effect() {
            return self.plan.end(turn);
        }
        insert(alloc, &mut self.store.snapshots, *head, tables)?;
        self.plan.end(turn)
    }

    fn snapshot_rows(
        &mut self,
        alloc: Global,
        date: Stamp,
        id: SnapId,
        from: u64,
        most: u32,
    ) -> Result<Rows, KeeperError>
        requires { 0 < most }
        ensures told { IfOk result (λ rows. Told (Some (keeper_store self.old)) (λ s. rows ≡ page from most (snapshot_rows date id s.snapshots))) }
        ensures kept { Some (keeper_store self.new) ≡ Some (keeper_store self.old) }
        ensures cause { KeeperCause (keeper_plan self.old).faults (keeper_plan self.new).faults result }
        ensures turn { ReadTurn (keeper_plan self.old) (keeper_plan self.new) result }
    {
        self.plan.read()?;
        Ok(snapshot_page(alloc, self.store.snapshots.items(), date, id, from, most)?)
    }
}
