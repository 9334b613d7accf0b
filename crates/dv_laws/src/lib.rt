//! Laws of the definitions and of the tables, each the clause of a function; nothing stands on them.
#![tactic(auto)]

mod batches;
mod collisions;
mod contents;
mod deltas;
mod stores;
mod tables;
mod vaults;

pub use batches::{batches_ascend, batches_tied, header_closes};
pub use collisions::collisions_tied;
pub use contents::{contents_decide, contents_stay, periods_tied};
pub use deltas::{
    hub_delta_is_batch, link_delta_is_batch, sat_delta_is_batch, status_delta_is_batch,
};
pub use stores::{mappings_stored, snapshots_stored, standing_stores_are_sound};
pub use tables::{cells_tell, effects_tell, pits_tell, tables_hold, tables_tell, vault_tells};
pub use vaults::{vault_grows, vault_holds};
