//! Requests, as they are taken from a connection, and the bytes of replies.
#![tactic(auto)]

mod buffers;
mod fields;
mod heads;
mod reading;
mod replies;
mod requests;
mod targets;

pub use buffers::Buffer;
pub use reading::read_request;
pub use replies::{Reply, ReplyKind, reply_bytes};
pub use requests::{Request, WireError};
