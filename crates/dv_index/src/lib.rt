//! Rows in the order in which they were appended, beside an index for look-ups by parent and load date.
#![tactic(auto)]

mod askings;
mod entries;
mod indexed_rows;
mod merges;
mod numbers;
mod placed;
mod searches;
mod successions;
mod walks;

pub use indexed_rows::IndexedRows;
pub use placed::Placed;
pub use successions::Succession;
