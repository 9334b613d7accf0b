//! The rules of a window that need no vault: those of its extracts as they are given, of their lengths, of its
//! load date and of the limits; the staging of its extracts; whether it repeats another window; and whether a
//! stored window is such as reading leaves.
#![tactic(auto)]

mod forms;
mod given_rules;
mod lengths;
mod limits;
mod load_dates;
mod repeats;
mod row_forms;
mod row_orders;
mod stagings;
mod text_forms;

pub use forms::is_window;
pub use given_rules::given_rule;
pub use lengths::too_long;
pub use limits::{MOST_WEIGHT, MOST_WINDOWS, full};
pub use load_dates::{late, open_other};
pub use repeats::{differs, same_extracts};
pub use stagings::{room_after, stage_feed, stage_window};
