// The keeper of a command whose windows nobody reads back.
use dv_catalog::TableId;
use dv_records::{Keeper, KeeperError, Rows, SnapHead, SnapId, SnapTable};
use dv_text::{List, Stamp, Text, Window, WindowHead};
use std::alloc::Global;

/// A keeper that keeps nothing and tells nothing: none of its calls fails.
#[derive(Drop)]
pub(crate) struct NullKeeper;

impl Keeper for NullKeeper {
    ghost use Rattle.std.specs.Prelude.{None};
    ghost use Rattle.dv_app.specs.NullKeepers.{untold_well_formed};

    ghost store = { λ k. None };

    ghost faults = { λ k. 0 };

    ghost well_formed = { λ k. untold_well_formed };

    fn mapping(&mut self, _alloc: Global) -> Result<Option<Text>, KeeperError> {
        Ok(None)
    }

    fn put_mapping(&mut self, _alloc: Global, _text: &Text) -> Result<(), KeeperError> {
        Ok(())
    }

    fn windows(&mut self, alloc: Global) -> Result<List<WindowHead>, KeeperError> {
        Ok(List::new(alloc))
    }

    fn stage(&mut self, _alloc: Global) -> Result<Option<Window>, KeeperError> {
        Ok(None)
    }

    fn put_stage(&mut self, _alloc: Global, _window: &Window) -> Result<(), KeeperError> {
        Ok(())
    }

    fn rows(
        &mut self,
        alloc: Global,
        table: TableId,
        _from: u64,
        _most: u32,
    ) -> Result<Rows, KeeperError> {
        Ok(match table {
            TableId::Hub(_) => Rows::Hubs(List::new(alloc)),
            TableId::Link(_) => Rows::Links(List::new(alloc)),
            TableId::Sat(_) => Rows::Sats(List::new(alloc)),
            TableId::Multi(_) => Rows::Multis(List::new(alloc)),
            TableId::Status(_) => Rows::Statuses(List::new(alloc)),
            TableId::Effect(_) => Rows::Effects(List::new(alloc)),
        })
    }

    fn append(&mut self, _alloc: Global, _table: TableId, _rows: &Rows) -> Result<(), KeeperError> {
        Ok(())
    }

    fn seal(&mut self, _alloc: Global, _head: &WindowHead) -> Result<(), KeeperError> {
        Ok(())
    }

    fn snapshots(&mut self, alloc: Global) -> Result<List<SnapHead>, KeeperError> {
        Ok(List::new(alloc))
    }

    fn put_snapshot(
        &mut self,
        _alloc: Global,
        _head: &SnapHead,
        _tables: &List<SnapTable>,
    ) -> Result<(), KeeperError> {
        Ok(())
    }

    fn snapshot_rows(
        &mut self,
        alloc: Global,
        _date: Stamp,
        id: SnapId,
        _from: u64,
        _most: u32,
    ) -> Result<Rows, KeeperError> {
        Ok(match id {
            SnapId::Pit(_) => Rows::Pits(List::new(alloc)),
            SnapId::Bridge(_) => Rows::Bridges(List::new(alloc)),
        })
    }
}
