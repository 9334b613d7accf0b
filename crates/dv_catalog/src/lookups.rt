ghost use Rattle.std.specs.Prelude.{◌≡◌, ◌^◌, ◌<◌, ℕ, List, find, length, map, option_map, position};
ghost use Rattle.std.specs.List.{list_any, position_or_len};
ghost use Rattle.std.specs.Str.{bytes_eq};
ghost use Rattle.dv_catalog.specs.Lookups.{text_twice};

use crate::entries::{FeedDef, HubDef, LinkDef, PathDef};
use crate::outlines::{FeedOutline, HubOutline, LinkOutline, PathOutline};
use dv_text::Text;

/// What is looked up by a name.
pub trait Named {
    ghost name_of: { Self → List ℕ };

    fn name(&self) -> &Text
        ensures { result.now ≡ name_of self.now };
}

impl Named for Text {
    ghost name_of = { λ text. text };

    fn name(&self) -> &Text {
        self
    }
}

impl<'a> Named for &'a Text {
    ghost name_of = { λ text. text.now };

    fn name(&self) -> &Text {
        *self
    }
}

impl Named for HubOutline {
    ghost name_of = { λ hub. hub.name };

    fn name(&self) -> &Text {
        &self.name
    }
}

impl Named for LinkOutline {
    ghost name_of = { λ link. link.name };

    fn name(&self) -> &Text {
        &self.name
    }
}

impl Named for FeedOutline {
    ghost name_of = { λ feed. feed.name };

    fn name(&self) -> &Text {
        &self.name
    }
}

impl Named for PathOutline {
    ghost name_of = { λ path. path.name };

    fn name(&self) -> &Text {
        &self.name
    }
}

impl Named for HubDef {
    ghost name_of = { λ hub. hub.name };

    fn name(&self) -> &Text {
        &self.name
    }
}

impl Named for FeedDef {
    ghost name_of = { λ feed. feed.name };

    fn name(&self) -> &Text {
        &self.name
    }
}

impl Named for PathDef {
    ghost name_of = { λ path. path.name };

    fn name(&self) -> &Text {
        &self.name
    }
}

/// Whether an entry has a name.
pub fn has_name<T: Named>(entries: &[T], name: &Text) -> bool
    ensures { result ≡ list_any (λ entry. bytes_eq (T.name_of entry) name.now) entries.now }
{
    entries.iter().any(|entry| entry.name() == name)
}

/// The place of the first entry with a name.
pub fn position_of<T: Named>(entries: &[T], name: &Text) -> Option<usize>
    ensures { result ≡ position (λ entry. bytes_eq (T.name_of entry) name.now) entries.now }
{
    entries.iter().position(|entry| entry.name() == name)
}

/// The place of the first entry with a name; where there is none, the number of entries.
pub fn place_of<T: Named>(entries: &[T], name: &Text) -> u32
    requires { length entries.now < 2 ^ 32 }
    ensures { result ≡ position_or_len (λ entry. bytes_eq (T.name_of entry) name.now) entries.now }
{
    position_of(entries, name).unwrap_or(entries.len()) as u32
}

/// The place of the first entry with a name; none where there is none.
pub fn find_place<T: Named>(entries: &[T], name: &Text) -> Option<u32>
    requires { length entries.now < 2 ^ 32 }
    ensures { result ≡ position (λ entry. bytes_eq (T.name_of entry) name.now) entries.now }
{
    let place = place_of(entries, name);
    if (place as usize) < entries.len() {
        Some(place)
    } else {
        None
    }
}

/// The first entry with a name.
pub fn find_named<'a, T: Named>(entries: &'a [T], name: &Text) -> Option<&'a T>
    ensures { option_map (λ entry. entry.now) result ≡ find (λ entry. bytes_eq (T.name_of entry) name.now) entries.now }
{
    entries.iter().find(|entry| entry.name() == name)
}

/// The first name that stands earlier among the entries.
pub fn name_again<T: Named>(entries: &[T]) -> Option<&Text>
    ensures { option_map (λ name. name.now) result ≡ text_twice (map T.name_of entries.now) }
{
    for (i, entry) in entries.iter().enumerate() {
        if has_name(&entries[..i], entry.name()) {
            return Some(entry.name());
        }
    }
    None
}
