//! Status tables: which parents are present at a date. Effectivity tables: from when to when each was in effect. And
//! what an extract adds to them.
#![tactic(auto)]

mod changes;
mod effect_changes;
mod effect_feed_tables;
mod effect_periods;
mod effect_tables;
mod feed_tables;
mod heads;
mod loads;
mod merges;
mod presences;
mod removals;
mod status_tables;
mod telling;
mod tracked_rows;

pub use effect_tables::EffectTable;
pub use status_tables::StatusTable;
