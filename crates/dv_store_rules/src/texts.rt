// The form of texts.
ghost use Rattle.std.specs.Prelude.{◌≡◌, length, nat_le};
ghost use Rattle.std.specs.List.{list_all};
ghost use Rattle.dv_records.specs.Limits.{most_field_bytes};
ghost use Rattle.dv_store_rules.specs.FormRules as spec;

use dv_text::{Digest, MOST_FIELD_BYTES, Text};

fn are_short(texts: &[Text]) -> bool
    ensures { result ≡ list_all (λ text. nat_le (length text) most_field_bytes) texts.now }
{
    texts
        .iter()
        .all(|text| text.bytes().len() <= MOST_FIELD_BYTES)
}

/// Whether texts are as many as they have to be, and none is too long. Takes no memory.
pub(crate) fn are_texts(count: usize, texts: &[Text]) -> bool
    ensures { result ≡ spec.are_texts count texts.now }
{
    texts.len() == count && are_short(texts)
}

/// Whether a digest has the width. Takes no memory.
pub(crate) fn is_digest(width: u8, d: &Digest) -> bool
    ensures { result ≡ spec.is_digest width d.now }
{
    d.bytes().len() == usize::from(width)
}
