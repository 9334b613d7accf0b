//! Point-in-time tables: for each key of a hub, which satellite row of each feed is valid at a date, and whether the
//! feed has the key then (Linstedt and Olschimke 2015, chapter 6); and that of a hub over a vault.
#![tactic(auto)]

mod cells;
mod keys;
mod pits;

pub use cells::{add_bare, add_multi, add_plain};
pub use keys::pit_keys;
pub use pits::pit_rows;
