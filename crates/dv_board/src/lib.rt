//! What the workers of a window share without ever waiting: a board from which they draw the numbers of tasks, and a
//! table into which they offer items and which keeps the least item of each key.
#![tactic(auto)]

mod board;
mod board_steps;
mod key_items;
mod key_steps;
mod key_table;
mod laws;
mod listing;
mod views;

pub use board::{Board, BoardSeat};
pub use key_items::KeyItems;
pub use key_table::{KeySeat, KeyTable, TOGETHER};
pub use laws::least_is_one_list;
pub use views::{BoardView, KeyView, Keys, Sizes};

#[cfg(test)]
mod tagged;
#[cfg(test)]
mod tests;
