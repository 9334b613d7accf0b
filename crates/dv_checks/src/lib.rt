//! The checks of a mapping: what an outline of a mapping file declares, or the first fault of it by number.
#![tactic(auto)]

mod checks;
mod driver_checks;
mod feed_checks;
mod limits;
mod link_checks;
mod mappings;
mod name_checks;
mod path_checks;

pub use mappings::catalog_of;
