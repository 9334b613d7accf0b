//! The program, over what it stands on: it runs a command, or serves connections, as its words say.
#![tactic(auto)]

mod programs;

pub use programs::program;
