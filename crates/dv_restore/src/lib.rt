//! The start of an office: the whole store of a keeper is read, held to the rules of form, and made the vault of the
//! sealed windows, with the open one beside it.
#![tactic(auto)]

mod checked_tables;
mod completions;
mod faults;
mod gathered;
mod mappings;
mod parted_rows;
mod parts;
mod readings;
mod restored;
mod stores;
mod table_reads;

pub use faults::{StartFault, StoreFault};
pub use mappings::{mapping_damage, stored_mapping};
pub use restored::Restored;
pub use stores::read_store;
