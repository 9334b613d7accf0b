//! The rows of the tables, the store that a keeper keeps, the keeper itself, and the definitions of the
//! vault, its windows, its marts and its steps.
#![tactic(auto)]

mod answers;
mod appends;
mod deliveries;
mod effect_places;
mod hub_places;
mod keepers;
mod kinds;
mod link_places;
mod mart_rows;
mod memory_keepers;
mod multi_places;
mod pages;
mod planned_failures;
mod raw_kinds;
mod raw_rows;
mod raw_tables;
mod sat_places;
mod snapshots;
mod sorting;
mod status_places;
mod stored_snapshots;
mod stores;
mod weights;

pub use answers::{Damage, InitAnswer, LoadAnswer, Outcome, ResumeAnswer, SnapAnswer};
pub use appends::append;
pub use deliveries::{Delivery, DeltaFault, HashedDelivery, HubNames};
pub use keepers::{Keeper, KeeperError};
pub use mart_rows::{HubCell, HubMartRow, PathRow, Period, PeriodRow};
pub use memory_keepers::MemoryKeeper;
pub use pages::{PAGE_ROWS, table_page};
pub use planned_failures::Fail;
pub use raw_kinds::RawRow;
pub use raw_rows::{Code, EffectRow, HubRow, LinkRow, MultiRow, SatRow, StatusRow};
pub use raw_tables::RawTable;
pub use snapshots::{BridgeRow, PitCell, PitRow, Snap, SnapHead, SnapId, SnapTable};
pub use sorting::{Ranked, sorted_firsts};
pub use stored_snapshots::{heads_of, snapshot_page};
pub use stores::{Rows, Store, TableRows};
pub use weights::{Weighed, weight};
