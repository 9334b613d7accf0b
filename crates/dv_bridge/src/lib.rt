//! Bridge tables: for each way along a path of links at a date, the hash keys of the links and of their hubs (Linstedt
//! and Olschimke 2015, chapter 6); and the bridge of a path over a vault.
#![tactic(auto)]

mod bridges;
mod fault;
mod joins;
mod keyed_links;
mod lent_links;
mod path_bridges;
mod ways;

pub use bridges::{bridge_first, bridge_step};
pub use fault::BridgeFault;
pub use lent_links::{PathLink, path_links};
pub use path_bridges::{bridge_rows, feed_links, path_ways};
pub use ways::Ways;
