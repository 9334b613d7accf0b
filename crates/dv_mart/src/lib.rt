//! What selects from a vault: marts, point-in-time tables, bridge tables and raw tables, at a date, as their texts have
//! them; the words that name them.
#![tactic(auto)]

mod hub_columns;
mod hub_contents;
mod hub_marts;
mod hub_rows;
mod lent_keys;
mod lent_texts;
mod mart_faults;
mod marts;
mod path_keys;
mod path_marts;
mod vault_tables;
mod whats;
mod whole_tables;

pub use hub_marts::hub_mart;
pub use mart_faults::{MartFault, too_large};
pub use marts::{feed_mart, mart_text, period_mart};
pub use path_marts::path_mart;
pub use whats::What;
pub use whole_tables::whole_table_text;
