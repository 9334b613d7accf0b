//! Hash keys and hash differences without memory of their own, and digests as text.
#![tactic(auto)]

mod fits;
mod hashed_extracts;
mod hashes;
mod hex_texts;
mod md5_keys;
mod rooms;
mod tiny_keys;

pub use fits::{attrs_fit, refs_fit};
pub use hashed_extracts::HashedExtract;
pub use hashes::{hash_diff, hash_key};
pub use hex_texts::hex_text;
pub use md5_keys::Md5Keys;
pub use rooms::{ROOM_SIZE, Room};
pub use tiny_keys::TinyKeys;
