// The words behind the first one: positionals, and options with their values.
ghost use Rattle.std.specs.Prelude.{◌≡◌, IfOk, map, option_map, string_bytes};
ghost use Rattle.dv_app.specs.Options as spec;

use dv_given::value_behind;
use dv_text::{List, Memory, Text};
use std::alloc::Global;

/// An option. It takes a value.
#[derive(Clone, Copy)]
pub(crate) enum OptionName {
    Workers,
    Order,
}

/// What a word may be.
#[derive(Clone, Copy)]
pub(crate) enum Expected {
    /// A positional, an option, or the first `--`.
    Any,
    /// The value of an option.
    Value(OptionName),
    /// A positional alone, since `--` stood.
    Positional,
}

/// What words have said: what the next one may be, the positionals, and the value of each option that stood.
#[derive(Drop)]
pub(crate) struct Found {
    pub next: Expected,
    pub positionals: List<Text>,
    pub workers: Option<Text>,
    pub order: Option<Text>,
}

// Nothing was said yet.
fn nothing(alloc: Global) -> Found
    ensures { result ≡ spec.nothing }
{
    Found {
        next: Expected::Any,
        positionals: List::new(alloc),
        workers: None,
        order: None,
    }
}

// The next word may be this.
fn expecting(found: Found, next: Expected) -> Found
    ensures { result ≡ spec.expecting found next }
{
    let Found {
        positionals,
        workers,
        order,
        ..
    } = found;
    Found {
        next,
        positionals,
        workers,
        order,
    }
}

// One positional more.
fn with_positional(found: Found, word: Text) -> Result<Found, Memory>
    ensures { IfOk result (λ more. more ≡ spec.with_positional found word) }
{
    let mut found = found;
    found.positionals.push(word)?;
    Ok(found)
}

// The value of an option; none where it has one.
fn with_value(found: Found, name: OptionName, value: Text) -> Option<Found>
    ensures { result ≡ spec.with_value found name value }
{
    let mut found = expecting(found, Expected::Any);
    match name {
        OptionName::Workers if found.workers.is_none() => found.workers = Some(value),
        OptionName::Order if found.order.is_none() => found.order = Some(value),
        _ => return None,
    }
    Some(found)
}

// The option that a word names.
fn option_named(word: &[u8]) -> Option<OptionName>
    ensures { result ≡ spec.option_named word.now }
{
    if word == b"--workers".as_slice() {
        Some(OptionName::Workers)
    } else if word == b"--order".as_slice() {
        Some(OptionName::Order)
    } else {
        None
    }
}

// The option that a word holds with its value.
fn option_held(word: &[u8]) -> Option<(OptionName, &[u8])>
    ensures { option_map (λ held. (held.0, held.1.now)) result ≡ spec.option_held word.now }
{
    if let Some(value) = value_behind(b"--workers=", word) {
        return Some((OptionName::Workers, value));
    }
    let value = value_behind(b"--order=", word)?;
    Some((OptionName::Order, value))
}

// Whether a word begins with `-`.
fn is_dashed(word: &[u8]) -> bool
    ensures { result ≡ spec.is_dashed word.now }
{
    match word {
        [] => false,
        [byte, ..] => *byte == b'-',
    }
}

// Takes a word that may be anything.
fn any_taken(alloc: Global, found: Found, word: Text) -> Result<Option<Found>, Memory>
    ensures { IfOk result (λ next. next ≡ spec.any_taken found word) }
{
    if word.bytes() == b"--".as_slice() {
        return Ok(Some(expecting(found, Expected::Positional)));
    }
    if let Some(name) = option_named(word.bytes()) {
        return Ok(Some(expecting(found, Expected::Value(name))));
    }
    if let Some((name, value)) = option_held(word.bytes()) {
        let value = Text::of(alloc, value)?;
        return Ok(with_value(found, name, value));
    }
    if is_dashed(word.bytes()) {
        return Ok(None);
    }
    Ok(Some(with_positional(found, word)?))
}

// Takes the next word; none where it is not what it may be.
fn taken(alloc: Global, found: Found, word: Text) -> Result<Option<Found>, Memory>
    ensures { IfOk result (λ next. next ≡ spec.taken found.next found word) }
{
    match found.next {
        Expected::Any => any_taken(alloc, found, word),
        Expected::Value(name) => Ok(with_value(found, name, word)),
        Expected::Positional => Ok(Some(with_positional(found, word)?)),
    }
}

/// What the words behind the first one say; none where they break the rule of options.
pub(crate) fn parted(alloc: Global, words: &[String]) -> Result<Option<Found>, Memory>
    ensures { IfOk result (λ found. found ≡ spec.parted (map string_bytes words.now)) }
{
    let mut found = nothing(alloc);
    for word in words {
        let word = Text::of(alloc, word.as_bytes())?;
        match taken(alloc, found, word)? {
            Some(next) => found = next,
            None => return Ok(None),
        }
    }
    match found.next {
        Expected::Value(_) => Ok(None),
        Expected::Any | Expected::Positional => Ok(Some(found)),
    }
}

/// Whether an option stands.
pub(crate) fn has_option(found: &Found) -> bool
    ensures { result ≡ spec.has_option found.now }
{
    found.workers.is_some() || found.order.is_some()
}
