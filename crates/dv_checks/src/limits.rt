//! The limits of a mapping.

ghost use Rattle.std.specs.Prelude.{◌≡◌, ◌+◌, ◌<◌, IfOk, MatchOption, length, nat_lt, option_map, sum_by};
ghost use Rattle.std.specs.List.{list_any};
ghost use Rattle.dv_catalog.specs.Checks as spec;
ghost use Rattle.dv_catalog.specs.Limits.{most_references, most_columns, most_ignored, most_steps};

use dv_catalog::{FeedOutline, LinkOutline, MapError, Outline, PathOutline};
use dv_text::{List, Memory, Text};
use std::alloc::Global;

const MOST_HUBS: usize = 32;

const MOST_LINKS: usize = 32;

const MOST_FEEDS: usize = 64;

const MOST_PATHS: usize = 16;

const MOST_REFERENCES: usize = 4;

const MOST_COLUMNS: usize = 32;

const MOST_IGNORED: usize = 64;

const MOST_STEPS: usize = 4;

// The room that is left after key columns; none where they need more.
fn room_after(keys: &[List<Text>], most: usize) -> Option<usize>
    ensures { MatchOption result (most < sum_by length keys.now) (λ room. room + sum_by length keys.now ≡ most) }
{
    let mut room = most;
    for columns in keys {
        room = room.checked_sub(columns.items().len())?;
    }
    Some(room)
}

fn has_many_columns(feed: &FeedOutline) -> bool
    ensures { result ≡ nat_lt most_columns (spec.mapped_count feed.now.keys feed.now.sub feed.now.attrs) }
{
    match room_after(feed.keys.items(), MOST_COLUMNS) {
        Some(room) => room < feed.sub.items().len()
            || room - feed.sub.items().len() < feed.attrs.items().len(),
        None => true,
    }
}

fn some_many_references(links: &[LinkOutline]) -> bool
    ensures { result ≡ list_any (λ link. nat_lt most_references (length link.hubs)) links.now }
{
    links
        .iter()
        .any(|link| link.hubs.items().len() > MOST_REFERENCES)
}

fn some_many_columns(feeds: &[FeedOutline]) -> bool
    ensures { result ≡ list_any (λ feed. nat_lt most_columns (spec.mapped_count feed.keys feed.sub feed.attrs)) feeds.now }
{
    feeds.iter().any(has_many_columns)
}

fn some_many_ignored(feeds: &[FeedOutline]) -> bool
    ensures { result ≡ list_any (λ feed. nat_lt most_ignored (length feed.ignore)) feeds.now }
{
    feeds
        .iter()
        .any(|feed| feed.ignore.items().len() > MOST_IGNORED)
}

fn some_many_steps(paths: &[PathOutline]) -> bool
    ensures { result ≡ list_any (λ path. nat_lt most_steps (length path.feeds)) paths.now }
{
    paths
        .iter()
        .any(|path| path.feeds.items().len() > MOST_STEPS)
}

fn first_over(outline: &Outline) -> Option<&'static [u8]>
    ensures { option_map (λ kind. kind.now) result ≡ spec.first_over outline.now }
{
    if outline.hubs.items().len() > MOST_HUBS {
        return Some(b"hubs");
    }
    if outline.links.items().len() > MOST_LINKS {
        return Some(b"links");
    }
    if outline.feeds.items().len() > MOST_FEEDS {
        return Some(b"feeds");
    }
    if outline.paths.items().len() > MOST_PATHS {
        return Some(b"paths");
    }
    if some_many_references(outline.links.items()) {
        return Some(b"references");
    }
    if some_many_columns(outline.feeds.items()) {
        return Some(b"columns");
    }
    if some_many_ignored(outline.feeds.items()) {
        return Some(b"ignored");
    }
    if some_many_steps(outline.paths.items()) {
        return Some(b"steps");
    }
    None
}

/// There are more entries, or more in an entry, than the limits let in.
pub(crate) fn too_many(alloc: Global, outline: &Outline) -> Result<Option<MapError>, Memory>
    ensures { IfOk result (λ fault. fault ≡ spec.too_many outline.now) }
{
    match first_over(outline) {
        Some(kind) => Ok(Some(MapError::TooMany {
            kind: Text::of(alloc, kind)?,
        })),
        None => Ok(None),
    }
}
