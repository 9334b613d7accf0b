//! The outside: a folder that is read, sinks that are written, connections and where they come from, and
//! gates between tasks. Each object counts
//! its faults, and answers a failure only where its count rose.
#![tactic(auto)]

mod calls;
mod doors;
mod folders;
mod gates;
mod lines;
mod links;
mod memory_doors;
mod memory_folders;
mod memory_links;
mod memory_sinks;
mod real_doors;
mod real_folders;
mod real_links;
mod real_streams;
mod sinks;
mod statuses;

pub use doors::Doors;
pub use folders::{Failed, Folder, FolderError, NamedFile};
pub use gates::{Gate, HoldGate, OfferGate, OpenGate};
pub use lines::{end, end_named, write_all, write_line};
pub use links::Link;
pub use memory_doors::MemoryDoors;
pub use memory_folders::MemoryFolder;
pub use memory_links::MemoryLink;
pub use memory_sinks::MemorySink;
pub use real_doors::RealDoors;
pub use real_folders::RealFolder;
pub use real_links::RealLink;
pub use real_streams::{RealErr, RealOut};
pub use sinks::Sink;
pub use statuses::Status;
