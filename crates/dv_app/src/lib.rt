//! The commands of the program, and `run`, the top call.
#![tactic(auto)]

mod counts;
mod exercises;
mod generated;
mod inits;
mod lines;
mod load_options;
mod loadings;
mod loads;
mod null_keepers;
mod openings;
mod option_values;
mod options;
mod queries;
mod replies;
mod resumes;
mod snapshots;
mod stored_tables;
mod texts;
mod top;
mod tries;
mod words;
mod works;

pub use dv_digest::Md5Keys;
pub use top::run;
