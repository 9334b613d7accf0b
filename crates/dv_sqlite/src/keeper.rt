ghost use Rattle.std.specs.Prelude.{◌≡◌};
ghost use Rattle.dv_records.specs.Changes.{KeeperCause};
ghost use Rattle.dv_sqlite.specs.Answers.{told};

use crate::refusals::Refusal;
use crate::rows::{self, Table};
use crate::{schema, states};
use dv_catalog::TableId;
use dv_records::{Keeper, KeeperError, Rows, SnapHead, SnapId, SnapTable};
use dv_text::{List, Stamp, Text, Window, WindowHead};
use sqlite::{Connection, File, FileStore};
use std::alloc::Global;

type Conn = Connection<FileStore<File>>;

/// A keeper over a SQLite file. It opens the file at its first call, and makes its tables in one that
/// has nothing. Each changing call is one transaction. It tells nothing of its store. Each refusal
/// other than want of memory is a fault: also a file that another process has open, a database of
/// another program or of another format, and values in the file that stand for nothing.
#[derive(Drop)]
pub struct SqliteKeeper {
    rt: HostRuntime,
    path: Text,
    conn: Option<Conn>,
    faults: u64,
}

// The connection to the file at a path, which is opened where it is not open. A new file has a sum in
// each page. A fault where the path is no UTF-8.
fn connected<'a>(
    rt: &HostRuntime,
    path: &Text,
    conn: &'a mut Option<Conn>,
) -> Result<&'a mut Conn, Refusal> {
    if conn.is_none() {
        let path = std::str::from_utf8(path.bytes())
            .ok()
            .ok_or(Refusal::Fault)?;
        let mut opened = Connection::open_with_sums(rt, path)?;
        schema::prepare(&mut opened)?;
        *conn = Some(opened);
    }
    conn.as_mut().ok_or(Refusal::Fault)
}

impl SqliteKeeper {
    /// A keeper over the file at a path, which has not failed. Nothing is opened.
    pub fn new(rt: HostRuntime, path: Text) -> SqliteKeeper
        ensures unfailed { ⟦<SqliteKeeper as Keeper>⟧.faults result ≡ 0 }
    {
        SqliteKeeper {
            rt,
            path,
            conn: None,
            faults: 0,
        }
    }

    /// Puts the log into the file, and gives the file up. Where that fails the log stands beside the
    /// file, and nothing is lost. To let go of a keeper so costs a caller no proof of how its
    /// connection is let go of.
    pub fn close(mut self) {
        if let Some(conn) = self.conn.take() {
            let _ = conn.close();
        }
    }

    // The answer of a call, whose fault is counted. Behind one the file is opened anew, so that what
    // is read then is what stands on the disk.
    fn settle<T: Drop>(&mut self, answer: Result<T, Refusal>) -> Result<T, KeeperError>
        ensures told { result ≡ told answer }
        ensures cause { KeeperCause self.old.faults self.new.faults result }
    {
        match answer {
            Ok(value) => Ok(value),
            Err(Refusal::Memory) => Err(KeeperError::Memory),
            Err(Refusal::Fault) => {
                self.faults = self.faults.saturating_add(1);
                self.conn = None;
                Err(KeeperError::Failed)
            }
        }
    }

    // What is done over a connection to the file, which is opened first where it is not open.
    fn on<T: Drop, W: FnOnce(&mut Conn) -> Result<T, Refusal>>(
        &mut self,
        work: W,
    ) -> Result<T, KeeperError>
        requires { W.IsAlwaysCallable work }
        ensures cause { KeeperCause self.old.faults self.new.faults result }
    {
        let answer = connected(&self.rt, &self.path, &mut self.conn).and_then(work);
        self.settle(answer)
    }
}

impl Keeper for SqliteKeeper {
    ghost use Rattle.std.specs.Prelude.{None};

    ghost store = { λ keeper. None };

    ghost faults = { λ keeper. keeper.faults };

    ghost well_formed = { λ keeper store told. Prim.search };

    fn mapping(&mut self, _alloc: Global) -> Result<Option<Text>, KeeperError> {
        self.on(states::mapping)
    }

    fn put_mapping(&mut self, _alloc: Global, text: &Text) -> Result<(), KeeperError> {
        self.on(|conn| states::put_mapping(conn, text))
    }

    fn windows(&mut self, _alloc: Global) -> Result<List<WindowHead>, KeeperError> {
        self.on(states::windows)
    }

    fn stage(&mut self, _alloc: Global) -> Result<Option<Window>, KeeperError> {
        self.on(states::stage)
    }

    fn put_stage(&mut self, _alloc: Global, window: &Window) -> Result<(), KeeperError> {
        self.on(|conn| states::put_stage(conn, window))
    }

    fn rows(
        &mut self,
        alloc: Global,
        table: TableId,
        from: u64,
        most: u32,
    ) -> Result<Rows, KeeperError> {
        self.on(|conn| rows::rows(alloc, conn, Table::Raw(table), (from, most)))
    }

    fn append(&mut self, _alloc: Global, table: TableId, rows: &Rows) -> Result<(), KeeperError> {
        self.on(|conn| rows::append(conn, table, rows))
    }

    fn seal(&mut self, _alloc: Global, head: &WindowHead) -> Result<(), KeeperError> {
        self.on(|conn| states::seal(conn, head))
    }

    fn snapshots(&mut self, _alloc: Global) -> Result<List<SnapHead>, KeeperError> {
        self.on(states::snapshots)
    }

    fn put_snapshot(
        &mut self,
        _alloc: Global,
        head: &SnapHead,
        tables: &List<SnapTable>,
    ) -> Result<(), KeeperError> {
        self.on(|conn| states::put_snapshot(conn, head, tables))
    }

    fn snapshot_rows(
        &mut self,
        alloc: Global,
        date: Stamp,
        id: SnapId,
        from: u64,
        most: u32,
    ) -> Result<Rows, KeeperError> {
        let date = date.print();
        self.on(|conn| rows::rows(alloc, conn, Table::Stored(id, &date), (from, most)))
    }
}
