//! The vault: the raw tables of a mapping, what a window adds to each of them, and how a window is kept.
#![tactic(auto)]

mod additions;
mod batches;
mod begun;
mod breaks;
mod hub_keys;
mod jobs;
mod keeping;
mod named_hubs;
mod raw_tables;
mod results;
mod tables;
mod teams;
mod vaults;

pub use additions::AdditionFault;
pub use batches::weight_with;
pub use begun::{Begun, Part};
pub use breaks::Untaken;
pub use keeping::head;
pub use raw_tables::RawTables;
pub use tables::Table;
pub use vaults::Vault;
