// The form of the texts of rows: in normal form, and not too long.
ghost use Rattle.std.specs.Prelude.{◌≡◌, ◌==◌, ◌∷◌, [], length, nat_le};
ghost use Rattle.std.specs.Char.{to_ascii_uppercase};
ghost use Rattle.std.specs.List.{list_all, prefix_len, suffix_len};
ghost use Rattle.dv_text.specs.Keys.{texts_eq};
ghost use Rattle.dv_text.specs.Normal as normal;
ghost use Rattle.dv_records.specs.Limits.{most_field_bytes};
ghost use Rattle.dv_records.specs.States as states;

use dv_text::{MOST_FIELD_BYTES, Text};

fn is_blank(byte: u8) -> bool
    ensures { result ≡ normal.is_blank byte }
{
    byte == b' ' || byte == b'\t' || byte == b'\n' || byte == b'\r'
}

fn leading(text: &[u8]) -> usize
    ensures { result ≡ prefix_len normal.is_blank text.now }
{
    text.iter().take_while(|byte| is_blank(**byte)).count()
}

fn trailing(text: &[u8]) -> usize
    ensures { result ≡ suffix_len normal.is_blank text.now }
{
    text.iter()
        .rev()
        .take_while(|byte| is_blank(**byte))
        .count()
}

// Whether a text is its own normal form as a field: a blank is neither first nor last.
fn is_trimmed(text: &[u8]) -> bool
    ensures { result ≡ texts_eq (normal.norm_field text.now ∷ []) (text.now ∷ []) }
{
    leading(text) == 0 && trailing(text) == 0
}

// Whether no byte is a small letter.
fn is_raised(text: &[u8]) -> bool
    ensures { result ≡ list_all (λ byte. to_ascii_uppercase byte == byte) text.now }
{
    text.iter().all(|byte| byte.to_ascii_uppercase() == *byte)
}

// Whether a text is its own normal form as a part of a key: as a field it is, and it has no small letter.
fn is_normal_part(text: &[u8]) -> bool
    ensures { result ≡ texts_eq (normal.norm_key text.now ∷ []) (text.now ∷ []) }
{
    is_trimmed(text) && is_raised(text)
}

fn is_short(text: &[u8]) -> bool
    ensures { result ≡ nat_le (length text.now) most_field_bytes }
{
    text.len() <= MOST_FIELD_BYTES
}

/// Whether a text is its own normal form as a part of a key, and not too long. Takes no memory.
pub(crate) fn is_key_part(text: &Text) -> bool
    ensures { result ≡ states.is_key_part text.now }
{
    is_normal_part(text.bytes()) && is_short(text.bytes())
}

/// Whether a text is its own normal form as a field, and not too long. Takes no memory.
pub(crate) fn is_field(text: &Text) -> bool
    ensures { result ≡ states.is_field text.now }
{
    is_trimmed(text.bytes()) && is_short(text.bytes())
}
