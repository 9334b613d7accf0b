//! The checks of names: declared once, declared at all, and of their form.

ghost use Rattle.std.specs.Prelude.{◌≡◌, [], ◌∷◌, IfOk, find, map, not, option_map};
ghost use Rattle.std.specs.List.{filter_map, flat_map, list_all, list_any};
ghost use Rattle.std.specs.Option.{option_to_list};
ghost use Rattle.std.specs.Str.{bytes_eq};
ghost use Rattle.dv_catalog.specs.Checks as spec;
ghost use Rattle.dv_catalog.specs.Limits as limits;

use dv_catalog::lookups::{Named, has_name, name_again};
use dv_catalog::{FeedOutline, HubOutline, LinkOutline, MapError, Outline, ParentName};
use dv_text::{Duplicate, Memory, Text};

const MOST_NAME_BYTES: usize = 40;

fn again_in_link<'a>(before: &[LinkOutline], link: &'a LinkOutline) -> Option<&'a Text>
    ensures { option_map (λ name. name.now) result ≡ spec.again_in_link before.now link.now }
{
    if has_name(before, &link.name) {
        return Some(&link.name);
    }
    name_again(link.hubs.items())
}

fn again_in_links(links: &[LinkOutline]) -> Option<&Text>
    ensures { option_map (λ name. name.now) result ≡ spec.again_in_links [] links.now }
{
    for (i, link) in links.iter().enumerate() {
        if let Some(name) = again_in_link(&links[..i], link) {
            return Some(name);
        }
    }
    None
}

fn first_again(outline: &Outline) -> Option<&Text>
    ensures { option_map (λ name. name.now) result ≡ spec.first_again outline.now }
{
    if let Some(name) = name_again(outline.hubs.items()) {
        return Some(name);
    }
    if let Some(name) = again_in_links(outline.links.items()) {
        return Some(name);
    }
    if let Some(name) = name_again(outline.feeds.items()) {
        return Some(name);
    }
    name_again(outline.paths.items())
}

/// Two hubs, two links, two feeds or two paths have one name, or a link names a hub twice.
pub(crate) fn name_twice(outline: &Outline) -> Result<Option<MapError>, Memory>
    ensures { IfOk result (λ fault. fault ≡ spec.name_twice outline.now) }
{
    match first_again(outline) {
        Some(name) => Ok(Some(MapError::NameTwice { name: name.copy()? })),
        None => Ok(None),
    }
}

fn undeclared<'a>(hubs: &[HubOutline], names: &'a [Text]) -> Option<&'a Text>
    ensures { option_map (λ name. name.now) result ≡ find (λ name. not (list_any (λ hub. bytes_eq hub.name name) hubs.now)) names.now }
{
    names.iter().find(|name| !has_name(hubs, name))
}

fn unknown_in_links<'a>(hubs: &[HubOutline], links: &'a [LinkOutline]) -> Option<&'a Text>
    ensures { option_map (λ name. name.now) result ≡ find (λ name. not (list_any (λ hub. bytes_eq hub.name name) hubs.now)) (flat_map (λ link. link.hubs) links.now) }
{
    for link in links {
        if let Some(name) = undeclared(hubs, link.hubs.items()) {
            return Some(name);
        }
    }
    None
}

fn undeclared_hub<'a>(hubs: &[HubOutline], feed: &'a FeedOutline) -> Option<&'a Text>
    ensures { option_map (λ name. name.now) result ≡ find (λ name. not (list_any (λ hub. bytes_eq hub.name name) hubs.now)) (option_to_list (spec.parent_hub feed.now.parent)) }
{
    match &feed.parent {
        ParentName::Hub(name) => if has_name(hubs, name) {
            None
        } else {
            Some(name)
        },
        ParentName::Link(_) => None,
    }
}

fn unknown_in_feeds<'a>(hubs: &[HubOutline], feeds: &'a [FeedOutline]) -> Option<&'a Text>
    ensures { option_map (λ name. name.now) result ≡ find (λ name. not (list_any (λ hub. bytes_eq hub.name name) hubs.now)) (filter_map (λ feed. spec.parent_hub feed.parent) feeds.now) }
{
    for feed in feeds {
        if let Some(name) = undeclared_hub(hubs, feed) {
            return Some(name);
        }
    }
    None
}

#[tactic(auto, using(crate::proofs::Finding::joined_finds))]
fn first_unknown_hub(outline: &Outline) -> Option<&Text>
    ensures { option_map (λ name. name.now) result ≡ find (λ name. not (spec.is_hub outline.now name)) (spec.named_hubs outline.now) }
{
    let hubs = outline.hubs.items();
    if let Some(name) = unknown_in_links(hubs, outline.links.items()) {
        return Some(name);
    }
    unknown_in_feeds(hubs, outline.feeds.items())
}

/// A link's hub or a feed's hub is not declared.
pub(crate) fn unknown_hub(outline: &Outline) -> Result<Option<MapError>, Memory>
    ensures { IfOk result (λ fault. fault ≡ spec.unknown_hub outline.now) }
{
    match first_unknown_hub(outline) {
        Some(name) => Ok(Some(MapError::UnknownHub { name: name.copy()? })),
        None => Ok(None),
    }
}

fn undeclared_link<'a>(links: &[LinkOutline], feed: &'a FeedOutline) -> Option<&'a Text>
    ensures { option_map (λ name. name.now) result ≡ find (λ name. not (list_any (λ link. bytes_eq link.name name) links.now)) (option_to_list (spec.parent_link feed.now.parent)) }
{
    match &feed.parent {
        ParentName::Hub(_) => None,
        ParentName::Link(name) => if has_name(links, name) {
            None
        } else {
            Some(name)
        },
    }
}

fn first_unknown_link(outline: &Outline) -> Option<&Text>
    ensures { option_map (λ name. name.now) result ≡ find (λ name. not (spec.is_link outline.now name)) (spec.named_links outline.now) }
{
    for feed in outline.feeds.items() {
        if let Some(name) = undeclared_link(outline.links.items(), feed) {
            return Some(name);
        }
    }
    None
}

/// A feed's link is not declared.
pub(crate) fn unknown_link(outline: &Outline) -> Result<Option<MapError>, Memory>
    ensures { IfOk result (λ fault. fault ≡ spec.unknown_link outline.now) }
{
    match first_unknown_link(outline) {
        Some(name) => Ok(Some(MapError::UnknownLink { name: name.copy()? })),
        None => Ok(None),
    }
}

fn is_name_byte(byte: u8) -> bool
    ensures { result ≡ limits.is_name_byte byte }
{
    matches!(byte, b'a'..=b'z' | b'0'..=b'9' | b'_')
}

fn are_name_bytes(bytes: &[u8]) -> bool
    ensures { result ≡ list_all limits.is_name_byte bytes.now }
{
    bytes.iter().all(|byte| is_name_byte(*byte))
}

fn has_name_form(name: &Text) -> bool
    ensures { result ≡ limits.has_name_form name.now }
{
    let bytes = name.bytes();
    bytes.len() >= 1 && bytes.len() <= MOST_NAME_BYTES && are_name_bytes(bytes)
}

fn misformed<T: Named>(entries: &[T]) -> Option<&Text>
    ensures { option_map (λ name. name.now) result ≡ find (λ name. not (limits.has_name_form name)) (map T.name_of entries.now) }
{
    for entry in entries {
        if !has_name_form(entry.name()) {
            return Some(entry.name());
        }
    }
    None
}

fn misformed_feed(feed: &FeedOutline) -> Option<&Text>
    ensures { option_map (λ name. name.now) result ≡ find (λ name. not (limits.has_name_form name)) (feed.now.name ∷ feed.now.source ∷ []) }
{
    if !has_name_form(&feed.name) {
        return Some(&feed.name);
    }
    if !has_name_form(&feed.source) {
        return Some(&feed.source);
    }
    None
}

fn misformed_in_feeds(feeds: &[FeedOutline]) -> Option<&Text>
    ensures { option_map (λ name. name.now) result ≡ find (λ name. not (limits.has_name_form name)) (flat_map (λ feed. feed.name ∷ feed.source ∷ []) feeds.now) }
{
    for feed in feeds {
        if let Some(name) = misformed_feed(feed) {
            return Some(name);
        }
    }
    None
}

#[tactic(auto, using(crate::proofs::Finding::joined_finds))]
fn first_misformed(outline: &Outline) -> Option<&Text>
    ensures { option_map (λ name. name.now) result ≡ find (λ name. not (limits.has_name_form name)) (spec.all_names outline.now) }
{
    if let Some(name) = misformed(outline.hubs.items()) {
        return Some(name);
    }
    if let Some(name) = misformed(outline.links.items()) {
        return Some(name);
    }
    if let Some(name) = misformed_in_feeds(outline.feeds.items()) {
        return Some(name);
    }
    misformed(outline.paths.items())
}

/// A name or a source has another form than 1 to 40 bytes of `a` to `z`, `0` to `9` and `_`.
pub(crate) fn name_form(outline: &Outline) -> Result<Option<MapError>, Memory>
    ensures { IfOk result (λ fault. fault ≡ spec.name_form outline.now) }
{
    match first_misformed(outline) {
        Some(name) => Ok(Some(MapError::NameForm { name: name.copy()? })),
        None => Ok(None),
    }
}
