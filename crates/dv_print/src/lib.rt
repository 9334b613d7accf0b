//! The texts of marts and tables, given their rows: the CSV of each, with its header, and of the windows; the feeds of a
//! hub and the hubs of a feed, by which texts have their columns; and the rules of queries.
#![tactic(auto)]

mod bridge_texts;
mod columns;
mod csv_texts;
mod feed_texts;
mod fields;
mod hub_feeds;
mod hub_texts;
mod names;
mod path_texts;
mod period_texts;
mod pit_texts;
mod query_rules;
mod raw_records;
mod recorded;
mod table_texts;
mod windows_texts;

pub use bridge_texts::bridge_text;
pub use csv_texts::{new_writer, put_record, put_row, put_rows, text_of};
pub use feed_texts::feed_header;
pub use fields::Fields;
pub use hub_feeds::{HubFeed, feed_hubs, feeds_of};
pub use hub_texts::hub_header;
pub use path_texts::path_header;
pub use period_texts::period_text;
pub use pit_texts::pit_text;
pub use query_rules::QueryRule;
pub use recorded::{RawRecorded, Recorded};
pub use table_texts::{table_header, table_text};
pub use windows_texts::windows_text;
