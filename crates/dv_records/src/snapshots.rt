use crate::stores::Rows;
use dv_text::{Digest, Duplicate, List, Memory, Stamp};

/// What a point-in-time row says of one feed: the load date of the valid satellite row, if there is one,
/// and whether the key is present (chapter 6, on point-in-time tables).
#[derive(Clone, Copy, Debug, PartialEq, Eq)]
pub struct PitCell {
    pub load: Option<Stamp>,
    pub present: bool,
}

impl Duplicate for PitCell {
    fn copy(&self) -> Result<PitCell, Memory> {
        Ok(*self)
    }
}

/// A point-in-time row: a hub's hash key, and a cell for each feed of the hub.
#[derive(Debug, PartialEq, Eq, Drop)]
pub struct PitRow {
    pub key: Digest,
    pub cells: List<PitCell>,
}

impl Duplicate for PitRow {
    fn copy(&self) -> Result<PitRow, Memory> {
        let cells = self.cells.copy()?;
        Ok(PitRow {
            key: self.key,
            cells,
        })
    }
}

/// A bridge row: the hash keys of the links along a path, then of all their hubs (chapter 6, on bridge
/// tables).
#[derive(Debug, PartialEq, Eq, Drop)]
pub struct BridgeRow {
    pub links: List<Digest>,
    pub hubs: List<Digest>,
}

impl Duplicate for BridgeRow {
    fn copy(&self) -> Result<BridgeRow, Memory> {
        let links = self.links.copy()?;
        let hubs = self.hubs.copy()?;
        Ok(BridgeRow { links, hubs })
    }
}

/// A table of a snapshot, by the place of its hub or path in declared order.
#[derive(Clone, Copy, Debug, PartialEq, Eq)]
pub enum SnapId {
    Pit(u32),
    Bridge(u32),
}

/// The rows of a table of a snapshot.
#[derive(Debug, PartialEq, Eq, Drop)]
pub struct SnapTable {
    pub id: SnapId,
    pub rows: Rows,
}

impl Duplicate for SnapTable {
    fn copy(&self) -> Result<SnapTable, Memory> {
        let rows = self.rows.copy()?;
        Ok(SnapTable { id: self.id, rows })
    }
}

/// A snapshot's date, the number of its rows, and what they weigh.
#[derive(Clone, Copy, Debug, PartialEq, Eq)]
pub struct SnapHead {
    pub date: Stamp,
    pub rows: u64,
    pub weight: u64,
}

/// A snapshot: its head and its tables.
#[derive(Debug, PartialEq, Eq, Drop)]
pub struct Snap {
    pub head: SnapHead,
    pub tables: List<SnapTable>,
}
