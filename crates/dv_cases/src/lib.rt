//! Cases of the program as texts (`docs/CASES.md`): they are read, played over a stand, and compared.
#![tactic(auto)]

mod acts;
mod blocks;
mod comparing;
mod escapes;
mod expectations;
mod faults;
mod lines;
mod mains;
mod outsides;
mod playing;
mod reading;
mod reports;
mod scenes;
mod stands;

pub use faults::Fault;
pub use mains::play_from;
pub use outsides::Outside;
pub use stands::{Digests, Ended, Held, Hold, Holding, Stand};
