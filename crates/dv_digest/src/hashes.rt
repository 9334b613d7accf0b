// The hash key of references and the hash difference of attributes, over a text that is put together in a room.
ghost use Rattle.std.specs.Prelude.{◌≡◌, ◌≤◌, ◌+◌, ◌++◌, length};
ghost use Rattle.dv_text.specs.Keys.{hashes_of, joined, refs_text};
ghost use Rattle.dv_digest.specs.declared.rooms.TheConstants.{ROOM_SIZE};

use crate::rooms::Room;
use dv_text::{Digest, Key, KeyDigest, List, Text, are_missing};

// Puts texts into the room, with a semicolon between each and the next.
fn put_texts(room: &mut Room, texts: &[Text])
    requires { length room.old + length (joined texts.now) ≤ ROOM_SIZE }
    ensures { room.new ≡ room.old ++ joined texts.now }
{
    let Some((first, rest)) = texts.split_first() else {
        return;
    };
    room.put(first.bytes());
    for text in rest {
        room.put_separator();
        room.put(text.bytes());
    }
}

// Puts the texts of keys into the room, with a semicolon between each and the next.
fn put_keys(room: &mut Room, refs: &[Key])
    requires { length room.old + length (refs_text refs.now) ≤ ROOM_SIZE }
    ensures { room.new ≡ room.old ++ refs_text refs.now }
{
    let Some((first, rest)) = refs.split_first() else {
        return;
    };
    put_texts(room, first.parts.items());
    for key in rest {
        room.put_separator();
        put_texts(room, key.parts.items());
    }
}

/// The hash key of a reference list: the zero key where every key is missing, else the digest of the keys'
/// texts, joined by semicolons. Takes no memory.
pub fn hash_key<H: KeyDigest>(d: &H, refs: &[Key], room: &mut Room) -> Digest
    requires { length (refs_text refs.now) ≤ ROOM_SIZE }
    ensures { result ≡ (hashes_of H.function).hash refs.now }
{
    if are_missing(refs) {
        return Digest::zero(d.width());
    }
    room.clear();
    put_keys(room, refs);
    d.digest(room.bytes())
}

/// The hash difference of attributes: the digest of them, joined by semicolons. Takes no memory.
pub fn hash_diff<H: KeyDigest>(d: &H, attrs: &List<Text>, room: &mut Room) -> Digest
    requires { length (joined attrs.now) ≤ ROOM_SIZE }
    ensures { result ≡ (hashes_of H.function).diff attrs.now }
{
    room.clear();
    put_texts(room, attrs.items());
    d.digest(room.bytes())
}
