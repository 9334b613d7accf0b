ghost use Rattle.std.specs.Prelude.{◌≡◌};
ghost use Rattle.dv_records.specs.Changes.{KeeperCause};

use dv_catalog::TableId;
use dv_records::{
    Fail, Keeper, KeeperError, Rows, Snap, SnapHead, SnapId, SnapTable, Store, append, heads_of,
    snapshot_page, table_page,
};
use dv_text::{Duplicate, List, Memory, Stamp, Text, Window, WindowHead};
use std::alloc::Global;

/// A keeper in memory that tells nothing of its store, and keeps whatever it is given.
#[derive(Drop)]
pub struct CaseKeeper {
    pub(crate) store: Store,
    fails: Vec<Fail>,
    failing_reads: u64,
    changes: u64,
    faults: u64,
}

// What there is in an option, a second time.
fn some<T: Duplicate>(option: &Option<T>) -> Result<Option<T>, Memory> {
    match option {
        Some(value) => Ok(Some(value.copy()?)),
        None => Ok(None),
    }
}

// The place of a snapshot among others: before those of its date and of later ones.
fn place_among(snaps: &[Snap], date: Stamp) -> usize {
    match snaps.iter().position(|other| date <= other.head.date) {
        Some(place) => place,
        None => snaps.len(),
    }
}

// Puts a snapshot in its place among others.
fn put_among(snaps: &mut Vec<Snap>, head: SnapHead, tables: List<SnapTable>) -> Result<(), Memory> {
    let place = place_among(snaps, head.date).min(snaps.len());
    snaps.insert(place, Snap { head, tables })?;
    Ok(())
}

// Puts a snapshot in its place among those that are stored.
fn put_snapshot(
    alloc: Global,
    snaps: &mut List<Snap>,
    head: SnapHead,
    tables: List<SnapTable>,
) -> Result<(), Memory> {
    let mut made = std::mem::replace(snaps, List::new(alloc)).into_vec()?;
    let put = put_among(&mut made, head, tables);
    *snaps = List::from_vec(made);
    put
}

impl CaseKeeper {
    /// A keeper that has nothing.
    pub fn new(alloc: Global) -> CaseKeeper {
        CaseKeeper {
            store: Store {
                mapping: None,
                stage: None,
                windows: List::new(alloc),
                tables: List::new(alloc),
                snapshots: List::new(alloc),
            },
            fails: Vec::new(alloc),
            failing_reads: 0,
            changes: 0,
            faults: 0,
        }
    }

    /// Of the calls that change what is kept, the one of this number is to fail.
    pub fn fail(&mut self, fail: Fail) -> Result<(), Memory> {
        self.fails.push(fail)?;
        Ok(())
    }

    /// The next call that reads what is kept is to fail.
    pub fn fail_read(&mut self) {
        self.failing_reads = self.failing_reads.saturating_add(1);
    }

    /// Whether both keep the same.
    pub fn is_same(&self, other: &CaseKeeper) -> bool {
        self.store == other.store
    }

    // Begins a call that reads.
    fn read(&mut self) -> Result<(), KeeperError>
        ensures { KeeperCause self.old.faults self.new.faults result }
    {
        if self.failing_reads == 0 {
            return Ok(());
        }
        self.failing_reads -= 1;
        self.faults = self.faults.saturating_add(1);
        Err(KeeperError::Failed)
    }

    // Begins a call that changes what is kept, and answers how it is to fail.
    fn change(&mut self) -> Option<Fail>
        ensures { self.new.faults ≡ self.old.faults }
    {
        self.changes = self.changes.saturating_add(1);
        let number = self.changes;
        self.fails
            .iter()
            .copied()
            .find(|fail| fail.change == number)
    }

    // Ends it.
    fn end(&mut self, failing: Option<Fail>) -> Result<(), KeeperError>
        ensures { KeeperCause self.old.faults self.new.faults result }
    {
        if failing.is_none() {
            return Ok(());
        }
        self.faults = self.faults.saturating_add(1);
        Err(KeeperError::Failed)
    }
}

// Whether a call makes its change.
fn takes_effect(failing: Option<Fail>) -> bool {
    match failing {
        Some(fail) => fail.done,
        None => true,
    }
}

impl Keeper for CaseKeeper {
    ghost use Rattle.std.specs.Prelude.{None};

    ghost store = { λ keeper. None };

    ghost faults = { λ keeper. keeper.faults };

    ghost well_formed = { λ keeper store told. Prim.search };

    fn mapping(&mut self, _alloc: Global) -> Result<Option<Text>, KeeperError> {
        self.read()?;
        Ok(some(&self.store.mapping)?)
    }

    fn put_mapping(&mut self, _alloc: Global, text: &Text) -> Result<(), KeeperError> {
        let text = text.copy()?;
        let failing = self.change();
        if takes_effect(failing) {
            self.store.mapping = Some(text);
        }
        self.end(failing)
    }

    fn windows(&mut self, _alloc: Global) -> Result<List<WindowHead>, KeeperError> {
        self.read()?;
        Ok(self.store.windows.copy()?)
    }

    fn stage(&mut self, _alloc: Global) -> Result<Option<Window>, KeeperError> {
        self.read()?;
        Ok(some(&self.store.stage)?)
    }

    fn put_stage(&mut self, _alloc: Global, window: &Window) -> Result<(), KeeperError> {
        let window = window.copy()?;
        let failing = self.change();
        if takes_effect(failing) {
            self.store.stage = Some(window);
        }
        self.end(failing)
    }

    fn rows(
        &mut self,
        alloc: Global,
        table: TableId,
        from: u64,
        most: u32,
    ) -> Result<Rows, KeeperError> {
        self.read()?;
        Ok(table_page(alloc, self.store.tables.items(), table, from, most)?)
    }

    fn append(&mut self, alloc: Global, table: TableId, rows: &Rows) -> Result<(), KeeperError> {
        let rows = rows.copy()?;
        let failing = self.change();
        if takes_effect(failing) {
            append(alloc, &mut self.store.tables, table, rows)?;
        }
        self.end(failing)
    }

    fn seal(&mut self, _alloc: Global, head: &WindowHead) -> Result<(), KeeperError> {
        let head = head.copy()?;
        let failing = self.change();
        if takes_effect(failing) {
            self.store.windows.push(head)?;
            self.store.stage = None;
        }
        self.end(failing)
    }

    fn snapshots(&mut self, alloc: Global) -> Result<List<SnapHead>, KeeperError> {
        self.read()?;
        Ok(heads_of(alloc, self.store.snapshots.items())?)
    }

    fn put_snapshot(
        &mut self,
        alloc: Global,
        head: &SnapHead,
        tables: &List<SnapTable>,
    ) -> Result<(), KeeperError> {
        let tables = tables.copy()?;
        let failing = self.change();
        if takes_effect(failing) {
            put_snapshot(alloc, &mut self.store.snapshots, *head, tables)?;
        }
        self.end(failing)
    }

    fn snapshot_rows(
        &mut self,
        alloc: Global,
        date: Stamp,
        id: SnapId,
        from: u64,
        most: u32,
    ) -> Result<Rows, KeeperError> {
        self.read()?;
        Ok(snapshot_page(alloc, self.store.snapshots.items(), date, id, from, most)?)
    }
}
