// Links in the order of the hash key at which they are joined, so that those of one key stand together.
ghost use Rattle.std.specs.Prelude.{◌≡◌, ◌≤◌, ◌++◌, IfOk, List as list_of, OnOk, Some, length, map, not, position, slice_get, ℕ};
ghost use Rattle.std.specs.List.{filter_map, position_or_len};
ghost use Rattle.std.specs.List.Sorted.{IsSortedByKey};
ghost use Rattle.std.specs.Option.{option_to_list};
ghost use Rattle.std.specs.Str.{bytes_eq};
ghost use Rattle.dv_bridge.specs.Joins as spec;
ghost use Rattle.dv_bridge.specs.KeyedRows.{met_by};
ghost use Rattle.dv_records.specs.Batches.{digest_cmp};

use crate::lent_links::{PathLink, put};
use dv_text::{Digest, Memory};
use std::alloc::Global;

/// A link beside the hash key at which it is joined.
#[derive(Drop)]
pub(crate) struct KeyedLink<'b, 'a> {
    pub(crate) key: Digest,
    pub(crate) link: &'b PathLink<'a>,
}

/// The hash key at a place; none past the end. Takes no memory.
pub(crate) fn key_at(hubs: &[Digest], place: u32) -> Option<Digest>
    ensures { result ≡ slice_get hubs.now place }
{
    hubs.get(place as usize).copied()
}

// Puts a link beside the hash key at this place of its hubs at the end, if it has one there.
fn put_keyed<'b, 'a>(
    made: &mut Vec<KeyedLink<'b, 'a>>,
    link: &'b PathLink<'a>,
    place: u32,
) -> Result<(), Memory>
    ensures { OnOk result (map spec.keyed_row made.new.items ≡ map spec.keyed_row made.old.items ++ option_to_list (spec.keyed_at place link.now)) }
{
    let Some(key) = key_at(link.row().hubs.items(), place) else {
        return Ok(());
    };
    put(made, KeyedLink { key, link })?;
    Ok(())
}

// The links, each beside the hash key at this place of its hubs; those that have none there are left out.
fn keyed_links<'b, 'a>(
    alloc: Global,
    links: &'b [PathLink<'a>],
    place: u32,
) -> Result<Vec<KeyedLink<'b, 'a>>, Memory>
    ensures { IfOk result (λ made. map spec.keyed_row made.items ≡ filter_map (spec.keyed_at place) links.now) }
{
    let mut made = Vec::with_capacity(alloc, links.len())?;
    for link in links {
        put_keyed(&mut made, link, place)?;
    }
    Ok(made)
}

/// The links beside their hash keys at this place of their hubs, in the order of these; those of one key keep
/// their order. Those that have none there are left out.
pub(crate) fn by_key<'b, 'a>(
    alloc: Global,
    links: &'b [PathLink<'a>],
    place: u32,
) -> Result<Vec<KeyedLink<'b, 'a>>, Memory>
    ensures sorted { IfOk result (λ made. IsSortedByKey (λ one. one.key) digest_cmp made.items) }
    ensures stable { IfOk result (λ made. (key : list_of ℕ) → spec.with_key key made.items ≡ met_by place (Some key) links.now) }
{
    let mut made = keyed_links(alloc, links, place)?;
    made.sort_by(|a, b| a.key.cmp(&b.key))?;
    Ok(made)
}

// The place of the first link of another key. Takes no memory.
fn other_place(links: &[KeyedLink<'_, '_>], key: &Digest) -> Option<usize>
    ensures { result ≡ position (λ one. not (bytes_eq key.now one.key)) links.now }
{
    links.iter().position(|one| *key != one.key)
}

// How many of the first links are of a key. Takes no memory.
fn count_of(links: &[KeyedLink<'_, '_>], key: &Digest) -> usize
    ensures value { result ≡ position_or_len (λ one. not (bytes_eq key.now one.key)) links.now }
    ensures within { result ≤ length links.now }
{
    other_place(links, key).unwrap_or(links.len())
}

// The links of a key, which stand together. Few are of one key, so that their end is not searched for. Takes no memory.
fn with_key<'c, 'b, 'a>(links: &'c [KeyedLink<'b, 'a>], key: &Digest) -> &'c [KeyedLink<'b, 'a>]
    requires { IsSortedByKey (λ one. one.key) digest_cmp links.now }
    ensures { result.now ≡ spec.keyed_with key.now links.now }
{
    let start = links.partition_point(|one| one.key.cmp(key).is_lt());
    let rest = &links[start..];
    &rest[..count_of(rest, key)]
}

/// The links of a key, if there is one. Takes no memory.
pub(crate) fn met_links<'c, 'b, 'a>(
    links: &'c [KeyedLink<'b, 'a>],
    key: Option<Digest>,
) -> &'c [KeyedLink<'b, 'a>]
    requires { IsSortedByKey (λ one. one.key) digest_cmp links.now }
    ensures { result.now ≡ spec.keyed_met key links.now }
{
    let Some(key) = key else {
        return &links[..0];
    };
    with_key(links, &key)
}
