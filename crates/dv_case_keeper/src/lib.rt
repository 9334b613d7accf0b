//! A keeper in memory for cases: it tells nothing of its store, its calls fail as they are to, and its store can be changed
//! as no command does it.
#![tactic(auto)]

mod fields;
mod giving;
mod heads;
mod keepers;
mod misfits;
mod raw_tables;
mod snapshots;
mod stages;

pub use keepers::CaseKeeper;
pub use misfits::Misfit;
