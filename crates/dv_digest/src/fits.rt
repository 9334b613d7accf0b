// Whether there is no more to hash than in a staged row.
ghost use Rattle.std.specs.Prelude.{◌≡◌, ◌≤◌, IsTrue, length, nat_le};
ghost use Rattle.std.specs.List.{list_all};
ghost use Rattle.dv_text.specs.Keys.{joined, refs_text};
ghost use Rattle.dv_text.specs.Limits.{most_field_bytes};
ghost use Rattle.dv_digest.specs.Fits as spec;
ghost use Rattle.dv_digest.specs.declared.rooms.TheConstants.{ROOM_SIZE};

use dv_text::{Key, List, MOST_FIELD_BYTES, Text};

fn are_short(texts: &[Text]) -> bool
    ensures { result ≡ list_all (λ text. nat_le (length text) most_field_bytes) texts.now }
{
    texts
        .iter()
        .all(|text| text.bytes().len() <= MOST_FIELD_BYTES)
}

fn texts_fit(most: usize, texts: &[Text]) -> bool
    ensures { result ≡ spec.texts_fit most texts.now }
{
    texts.len() <= most && are_short(texts)
}

fn parts_fit(refs: &[Key]) -> bool
    ensures { result ≡ list_all (λ key. spec.texts_fit 4 key.parts) refs.now }
{
    refs.iter().all(|key| texts_fit(4, key.parts.items()))
}

/// Whether there are at most 4 references, of at most 4 parts of at most 4,096 bytes each, as in every staged
/// row. Then a room holds their text.
#[tactic(auto, using(crate::proofs::Lengths::refs_text_fits))]
pub fn refs_fit(refs: &[Key]) -> bool
    ensures value { result ≡ spec.refs_fit refs.now }
    ensures fits { IsTrue result → length (refs_text refs.now) ≤ ROOM_SIZE }
{
    refs.len() <= 4 && parts_fit(refs)
}

/// Whether there are at most 32 attributes of at most 4,096 bytes each, as in every staged row. Then a room
/// holds their text.
#[tactic(auto, using(crate::proofs::Lengths::attrs_text_fits))]
pub fn attrs_fit(attrs: &List<Text>) -> bool
    ensures value { result ≡ spec.attrs_fit attrs.now }
    ensures fits { IsTrue result → length (joined attrs.now) ≤ ROOM_SIZE }
{
    texts_fit(32, attrs.items())
}
