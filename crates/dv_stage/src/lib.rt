//! Staging: the rows of an extract, or the first rule that it breaks.
#![tactic(auto)]

mod checks;
mod faults;
mod fields;
mod headers;
mod layouts;
mod partners;
mod readings;
mod records;
mod rows;
mod stages;
mod taken_rows;
mod whole;

pub use faults::StageFault;
pub use partners::two_drivers;
pub use stages::{Staged2, stage};
