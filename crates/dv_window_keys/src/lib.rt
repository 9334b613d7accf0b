//! The reference lists that the rows of a window bring to hubs and links: gathered by one thread or by several workers,
//! and what of them the window delivers.
#![tactic(auto)]

mod delivered_lists;
mod gathered_items;
mod hashed_windows;
mod item_ranges;
mod items;
mod kept_items;
mod mixings;
mod offered_items;
mod offers;
mod tasks;

pub use delivered_lists::deliveries;
pub use gathered_items::window_items;
pub use hashed_windows::{HashedWindow, gathered, gathered_by};
pub use item_ranges::ranges_of;
pub use items::{Mixing, WindowItem, WindowItems};
pub use kept_items::{KeptKeys, kept_keys};
pub use mixings::mixing_of;
pub use offered_items::{ItemRange, KeyOffers, offer_items};
pub use offers::Offer;
pub use tasks::{Task, tasks_of};
