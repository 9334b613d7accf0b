use crate::kinds::same_kind;
use crate::raw_rows::{EffectRow, HubRow, LinkRow, MultiRow, SatRow, StatusRow};
use crate::snapshots::{BridgeRow, PitRow, Snap};
use dv_catalog::TableId;
use dv_text::{Duplicate, List, Memory, Text, Window, WindowHead};

/// Rows of one kind.
#[derive(Debug, PartialEq, Eq, Drop)]
pub enum Rows {
    Hubs(List<HubRow>),
    Links(List<LinkRow>),
    Sats(List<SatRow>),
    Multis(List<MultiRow>),
    Statuses(List<StatusRow>),
    Effects(List<EffectRow>),
    Pits(List<PitRow>),
    Bridges(List<BridgeRow>),
}

impl Duplicate for Rows {
    fn copy(&self) -> Result<Rows, Memory> {
        Ok(same_kind!(self, rows => rows.copy()?))
    }
}

/// The rows of a raw table.
#[derive(Debug, PartialEq, Eq, Drop)]
pub struct TableRows {
    pub table: TableId,
    pub rows: Rows,
}

/// What a keeper keeps: the mapping file's bytes, the open window if there is one, the heads of the sealed
/// windows in order, the rows of the raw tables, and the stored snapshots by date. A table without an entry
/// has no rows.
#[derive(Debug, PartialEq, Eq, Drop)]
pub struct Store {
    pub mapping: Option<Text>,
    pub stage: Option<Window>,
    pub windows: List<WindowHead>,
    pub tables: List<TableRows>,
    pub snapshots: List<Snap>,
}
