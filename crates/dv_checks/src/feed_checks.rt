//! The checks of feeds: their key columns, all their columns, and their driving keys.

ghost use Rattle.std.specs.Prelude.{◌≡◌, ◌==◌, ◌&&◌, ◌++◌, IfOk, OnOk, find, length, map, not, option_map};
ghost use Rattle.std.specs.List.{flat_map, list_all, zip};
ghost use Rattle.dv_catalog.specs.Checks as spec;

use dv_catalog::lookups::{find_named, has_name, name_again};
use dv_catalog::{FeedOutline, HubOutline, LinkOutline, MapError, Outline, ParentName};
use dv_text::{Duplicate, List, Memory, Text};
use std::alloc::Global;
use std::slice;

fn hub_parts(hubs: &[HubOutline], name: &Text) -> u32
    ensures { result ≡ spec.hub_parts hubs.now name.now }
{
    match find_named(hubs, name) {
        Some(hub) => hub.parts,
        None => 0,
    }
}

/// The names of the hubs of the link with a name; none where there is no such link.
pub(crate) fn link_hub_names<'a>(links: &'a [LinkOutline], name: &Text) -> &'a [Text]
    ensures { result.now ≡ spec.link_hub_names links.now name.now }
{
    match find_named(links, name) {
        Some(link) => link.hubs.items(),
        None => &[],
    }
}

/// The names of the hubs of a parent's reference lists.
pub(crate) fn reference_hubs<'a>(links: &'a [LinkOutline], parent: &'a ParentName) -> &'a [Text]
    ensures { result.now ≡ spec.reference_hubs links.now parent.now }
{
    match parent {
        ParentName::Hub(name) => slice::from_ref(name),
        ParentName::Link(name) => link_hub_names(links, name),
    }
}

fn has_parts(hubs: &[HubOutline], columns: &List<Text>, hub: &Text) -> bool
    ensures { result ≡ (length columns.now == spec.hub_parts hubs.now hub.now) }
{
    columns.items().len() == hub_parts(hubs, hub) as usize
}

fn have_parts(hubs: &[HubOutline], keys: &[List<Text>], references: &[Text]) -> bool
    ensures { result ≡ list_all (λ (columns, hub). length columns == spec.hub_parts hubs.now hub) (zip keys.now references.now) }
{
    keys.iter()
        .zip(references)
        .all(|(columns, hub)| has_parts(hubs, columns, hub))
}

fn keys_fit(outline: &Outline, feed: &FeedOutline) -> bool
    ensures { result ≡ spec.keys_fit outline.now feed.now }
{
    let keys = feed.keys.items();
    let references = reference_hubs(outline.links.items(), &feed.parent);
    keys.len() == references.len() && have_parts(outline.hubs.items(), keys, references)
}

fn first_misfit(outline: &Outline) -> Option<&FeedOutline>
    ensures { option_map (λ feed. feed.now) result ≡ find (λ feed. not (spec.keys_fit outline.now feed)) outline.now.feeds }
{
    outline
        .feeds
        .items()
        .iter()
        .find(|feed| !keys_fit(outline, feed))
}

/// The key columns of a feed do not fit its references.
pub(crate) fn key_count(outline: &Outline) -> Result<Option<MapError>, Memory>
    ensures { IfOk result (λ fault. fault ≡ spec.key_count outline.now) }
{
    match first_misfit(outline) {
        Some(feed) => Ok(Some(MapError::KeyCount {
            feed: feed.name.copy()?,
        })),
        None => Ok(None),
    }
}

fn add_all<'a>(columns: &mut Vec<&'a Text>, more: &'a List<Text>) -> Result<(), Memory>
    ensures { OnOk result (map (λ column. column.now) columns.new.items ≡ map (λ column. column.now) columns.old.items ++ more.now) }
{
    for column in more.items() {
        columns.push(column)?;
    }
    Ok(())
}

fn key_columns<'a>(alloc: Global, keys: &'a [List<Text>]) -> Result<Vec<&'a Text>, Memory>
    ensures { IfOk result (λ columns. map (λ column. column.now) columns.items ≡ flat_map (λ columns. columns) keys.now) }
{
    let mut columns = Vec::new(alloc);
    for list in keys {
        add_all(&mut columns, list)?;
    }
    Ok(columns)
}

fn all_columns(alloc: Global, feed: &FeedOutline) -> Result<Vec<&Text>, Memory>
    ensures { IfOk result (λ columns. map (λ column. column.now) columns.items ≡ spec.all_columns feed.now.keys feed.now.sub feed.now.attrs feed.now.ignore) }
{
    let mut columns = key_columns(alloc, feed.keys.items())?;
    add_all(&mut columns, &feed.sub)?;
    add_all(&mut columns, &feed.attrs)?;
    add_all(&mut columns, &feed.ignore)?;
    Ok(columns)
}

fn column_again(alloc: Global, feed: &FeedOutline) -> Result<Option<MapError>, Memory>
    ensures { IfOk result (λ fault. fault ≡ spec.column_again feed.now) }
{
    let columns = all_columns(alloc, feed)?;
    match name_again(&columns) {
        Some(column) => Ok(Some(MapError::ColumnTwice {
            feed: feed.name.copy()?,
            name: column.copy()?,
        })),
        None => Ok(None),
    }
}

/// A column stands twice in one feed.
pub(crate) fn column_twice(alloc: Global, outline: &Outline) -> Result<Option<MapError>, Memory>
    ensures { IfOk result (λ fault. fault ≡ spec.column_twice outline.now) }
{
    for feed in outline.feeds.items() {
        if let Some(fault) = column_again(alloc, feed)? {
            return Ok(Some(fault));
        }
    }
    Ok(None)
}
