ghost use Rattle.std.specs.Prelude.{◌≡◌, ◌≤◌, IfOk, length};
ghost use Rattle.std.specs.List.{prefix_len, suffix_len};
ghost use Rattle.dv_text.specs.Keys as keys;
ghost use Rattle.dv_text.specs.Normal as spec;

use crate::failure::Memory;
use crate::lists::List;
use crate::texts::Text;
use std::alloc::Global;

fn is_blank(byte: u8) -> bool
    ensures { result ≡ spec.is_blank byte }
{
    byte == b' ' || byte == b'\t' || byte == b'\n' || byte == b'\r'
}

fn leading(text: &[u8]) -> usize
    ensures value { result ≡ prefix_len spec.is_blank text.now }
    ensures within { result ≤ length text.now }
{
    text.iter().take_while(|byte| is_blank(**byte)).count()
}

fn trailing(text: &[u8]) -> usize
    ensures value { result ≡ suffix_len spec.is_blank text.now }
    ensures within { result ≤ length text.now }
{
    text.iter()
        .rev()
        .take_while(|byte| is_blank(**byte))
        .count()
}

fn trimmed(text: &[u8]) -> &[u8]
    ensures { result.now ≡ spec.norm_field text.now }
{
    let rest = &text[leading(text)..];
    &rest[..rest.len() - trailing(rest)]
}

/// A field's normal form: the text without space, tab, CR and LF at both ends. That of `" a b "` is
/// `"a b"`, and that of `" \t\r\n"` has no bytes.
pub fn field(alloc: Global, text: &[u8]) -> Result<Text, Memory>
    ensures { IfOk result (λ made. made ≡ spec.norm_field text.now) }
{
    Text::of(alloc, trimmed(text))
}

/// A key part's normal form: that of a field, with the ASCII letters a to z raised to A to Z. No
/// other byte changes. That of `" A2 "` is `"A2"`, and that of `"a1"` is `"A1"`.
pub fn key_part(alloc: Global, text: &[u8]) -> Result<Text, Memory>
    ensures { IfOk result (λ made. made ≡ spec.norm_key text.now) }
{
    Text::raised(alloc, trimmed(text))
}

/// The parts, with a semicolon between each and the next: `a` and `b` are joined as `a;b`.
#[tactic(auto, using(crate::proofs::Joins::join_more))]
pub fn joined(alloc: Global, parts: &List<Text>) -> Result<Text, Memory>
    ensures { IfOk result (λ made. made ≡ keys.joined parts.now) }
{
    let Some((first, rest)) = parts.items().split_first() else {
        return Ok(Text::empty());
    };
    let mut made = Vec::from_slice(alloc, first.bytes())?;
    for part in rest {
        made.push(b';')?;
        made.extend_from_slice(part.bytes())?;
    }
    Text::from_vec(made)
}
