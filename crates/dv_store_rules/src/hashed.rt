// Hashes that stand in rows.
ghost use Rattle.std.specs.Prelude.{◌≡◌, IsTrue};
ghost use Rattle.dv_text.specs.Keys.{hashes_of};
ghost use Rattle.dv_store_rules.specs.RowWalks as spec;

use dv_digest::{Room, hash_diff, hash_key};
use dv_text::{Digest, Key, KeyDigest, List, Text};
use std::slice::from_ref;

/// A hash that stands in a row, and what it has to be the hash of: no hash is asked for, or the hash key of a key, or
/// the hash difference of attributes.
#[derive(Clone, Copy)]
pub(crate) enum Hashed<'a> {
    Nothing,
    Key {
        digest: Digest,
        key: &'a Key,
    },
    Diff {
        digest: Digest,
        attrs: &'a List<Text>,
    },
}

/// Whether a hash that stands in a row is what it has to be. Condition: what is hashed fits the room. Takes no memory.
pub(crate) fn is_hashed<H: KeyDigest>(asked: Hashed<'_>, digest: &H, room: &mut Room) -> bool
    requires { IsTrue (spec.hashed_fits asked) }
    ensures { result ≡ spec.is_hashed (hashes_of H.function) asked.entry }
{
    match asked {
        Hashed::Nothing => true,
        Hashed::Key { digest: held, key } => held == hash_key(digest, from_ref(key), room),
        Hashed::Diff {
            digest: held,
            attrs,
        } => held == hash_diff(digest, attrs, room),
    }
}
