//! Workers that draw numbered tasks from a board, and whose results are laid out by number: what
//! comes of it is the same whatever the workers and the order were.
#![tactic(auto)]

mod carried;
mod crews;
mod orders;
mod results;

pub use carried::Carrier;
pub use crews::{run_tasks, run_tasks_with};
pub use orders::Order;

#[cfg(test)]
mod tests;
