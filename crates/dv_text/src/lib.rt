//! The values of the warehouse: texts, lists, business keys, rows, load dates and digests.
#![tactic(auto)]

mod calendar;
mod digests;
mod failure;
mod key_digest;
mod limits;
mod lists;
mod normal;
mod orders;
mod prefixes;
mod rows;
mod stamps;
mod texts;

pub use digests::Digest;
pub use failure::{Duplicate, Memory};
pub use key_digest::KeyDigest;
pub use limits::MOST_FIELD_BYTES;
pub use lists::List;
pub use normal::{field, joined, key_part};
pub use orders::{Exact, sorted_distinct, sorted_list, sorted_rows};
pub use prefixes::{Prefixed, sorted_by_prefix};
pub use rows::{Key, NRow, Staged, Window, WindowHead, are_missing};
pub use stamps::Stamp;
pub use texts::Text;
