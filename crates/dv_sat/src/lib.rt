//! Satellites: what described a parent at a date, and what an extract adds.
#![tactic(auto)]

mod feed_tables;
mod multi_changes;
mod multi_feed_tables;
mod multi_tables;
mod runs;
mod sat_changes;
mod sat_tables;

pub use multi_tables::MultiTable;
pub use sat_tables::SatTable;
