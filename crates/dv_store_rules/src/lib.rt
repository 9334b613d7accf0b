//! The rules of form of what a keeper has stored: the sealed windows, the open window, the rows of the raw tables and the
//! heads of the snapshots.
#![tactic(auto)]

mod effects;
mod feeds;
mod flaws;
mod frames;
mod hashed;
mod heads;
mod hubs;
mod known;
mod links;
mod loads;
mod multis;
mod once;
mod pages;
mod parents;
mod row_checks;
mod row_walks;
mod sats;
mod snapshots;
mod statuses;
mod texts;

pub use effects::checked_effect;
pub use flaws::{Checked, Fault, Flaw};
pub use heads::{head_flaw, is_stage};
pub use hubs::checked_hub;
pub use known::Known;
pub use links::checked_link;
pub use multis::checked_multi;
pub use pages::{Read, read_rows};
pub use sats::checked_sat;
pub use snapshots::{MOST_SNAPSHOT_WEIGHT, MOST_SNAPSHOTS, snapshot_flaw};
pub use statuses::checked_status;
