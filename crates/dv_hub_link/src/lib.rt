//! The tables of hubs and links: their rows, their look-up by hash key, and the rows that a window adds, or the
//! least pair of different reference lists with one hash key.
#![tactic(auto)]

mod additions;
mod copies;
mod deltas;
mod hashed_lists;
mod holds_lists;
mod hub_rows;
mod hub_table;
mod key_rows;
mod link_rows;
mod link_table;
mod missing_keys;
mod named_keys;
mod raw_tables;
mod rivals;
mod told_lists;

pub use hub_table::HubTable;
pub use link_table::LinkTable;
pub use missing_keys::{missing_key, part_count};
