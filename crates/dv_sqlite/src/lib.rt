//! A keeper over one SQLite file. The rows of each raw table stand in a table of the file, in the order
//! in which they came, with the columns of the printed table; so do the point-in-time rows of a hub and
//! the bridges of a path, those of all snapshots in one. A directory says which rows are whose. Beside
//! them stand the sealed windows, the heads of the snapshots, the mapping file, the open window, and
//! what the file is.
//!
//! A keeper over a file tells nothing of its store, since the library's contracts tell of it only
//! where the disk never failed. So most functions here have no clauses but for the count of faults:
//! tests over a file say what it holds.
#![tactic(auto)]

mod cells;
mod changes;
mod encodings;
mod keeper;
mod kinds;
mod lines;
mod refusals;
mod rows;
mod schema;
mod states;

pub use keeper::SqliteKeeper;
