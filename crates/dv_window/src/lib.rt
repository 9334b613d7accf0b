//! The office: it takes windows as they are given, judges them in the state that it stands for, gives those that it
//! loads to a keeper, completes one that was broken off, and keeps the vault of the sealed ones. Snapshots: what is stored
//! at a date, or why nothing is, and the text of a stored point-in-time table or bridge.
#![tactic(auto)]

mod bridge_forms;
mod damages;
mod loads;
mod offices;
mod pages;
mod pit_forms;
mod plans;
mod refreshes;
mod refusals;
mod resumes;
mod row_forms;
mod snapshot_heads;
mod snapshot_plans;
mod snapshot_queries;
mod snapshot_refusals;
mod snapshot_tables;
mod snapshots;
mod stagings;
mod starts;
mod stops;
mod stored;
mod stored_texts;
mod taken_snapshots;
mod taken_windows;
mod workers;

pub use dv_crew::Order;
pub use dv_restore::{StartFault, StoreFault};
pub use offices::Office;
pub use stored::StoredFault;
pub use stored_texts::stored_text;
pub use taken_snapshots::snapshot;
pub use workers::workers_for;
