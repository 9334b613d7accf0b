//! Each feed's content and periods at a date, read back from the raw tables of a vault.
#![tactic(auto)]

mod content_rows;
mod contents;
mod feed_periods;
mod fronts;
mod lenders;
mod multi_contents;

pub use content_rows::ContentRow;
pub use contents::{content, lent_content};
pub use feed_periods::periods;
pub use lenders::missing_keys;
