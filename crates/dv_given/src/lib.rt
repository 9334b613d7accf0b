//! What a folder gives a command, and how a command ends: the mapping's file, manifests and the
//! files that they name, dates, the numbers that words say, the lines of windows, and the endings
//! that commands share, with their lines.
#![tactic(auto)]

mod arrivals;
mod dates;
mod endings;
mod lines;
mod mapping_files;
mod numbers;
mod reads;
mod windows;

pub use arrivals::{Arrived, bring};
pub use dates::check_date;
pub use endings::{Ending, end_command};
pub use lines::{
    ABSENT, DAMAGED, KEEPER_FAULT, MAPPING_DIFFERS, MAPPING_NAME, MAPPING_NONE, MAPPING_REFUSED,
    MEMORY, PROGRAM, READ_FAULT, USAGE, damage_text, line_text,
};
pub use mapping_files::{MappingFile, read_mapping_file};
pub use numbers::{WORKERS, number_in, value_behind, workers_in};
pub use windows::{Taken, is_refusal, status_of_windows, window_line};
