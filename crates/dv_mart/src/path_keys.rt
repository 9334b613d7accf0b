//! The links of a path's feeds with their keys, in the order of these.
ghost use Rattle.std.specs.Prelude.{◌≡◌, ◌<◌, IfOk, IsTrue, length, map, nat_lt, slice_get};
ghost use Rattle.std.specs.List.{list_all};
ghost use Rattle.dv_catalog.specs.Mappings.{is_link_feed};
ghost use Rattle.dv_records.specs.ReadBack.{key_read, keys_read};
ghost use Rattle.dv_contents.specs.Contents as contents;
ghost use Rattle.dv_mart.specs.PathTables as spec;

use dv_bridge::{PathLink, feed_links};
use dv_print::feed_hubs;
use dv_records::{Ranked, sorted_firsts};
use dv_text::{Digest, Key, List, Memory, Prefixed, Stamp};
use dv_vault::Vault;
use std::alloc::Global;
use std::cmp::Ordering;
use std::marker::Model;

// A link behind the number of its first key. Contracts see it as the link.
#[derive(Drop)]
struct Front<'a> {
    prefix: u128,
    link: PathLink<'a>,
}

impl<'a> Model for Front<'a> {
    ghost use Rattle.std.specs.Prelude.{◌≡◌};
    ghost use Rattle.dv_text.specs.Prefixes.{first_prefix, key_prefix};
    ghost use Rattle.dv_bridge.specs.KeyedRows.{KeyedRow};

    ghost Value = { KeyedRow };

    ghost view = { λ front. front.link };

    ghost invariant = { λ front. front.prefix ≡ first_prefix key_prefix front.link.keys };
}

impl<'a> Front<'a> {
    // A link behind the number of its first key.
    fn of(link: PathLink<'a>) -> Front<'a>
        ensures { result ≡ link.entry }
    {
        let prefix = match link.keys().first() {
            Some(key) => key.prefix(),
            None => 0,
        };
        Front { prefix, link }
    }

    // The link alone.
    fn into_link(self) -> PathLink<'a>
        ensures { result ≡ self.entry }
    {
        self.link
    }
}

impl<'a> Ranked for Front<'a> {
    ghost use Rattle.dv_mart.specs.PathTables.{keyed_cmp};
    ghost use Rattle.dv_mart.specs.KeyOrder.{keyed_total};

    ghost rank_cmp = { keyed_cmp };

    fn compared(&self, other: &Front<'a>) -> Ordering {
        match self.prefix.cmp(&other.prefix) {
            Ordering::Less => Ordering::Less,
            Ordering::Equal => self.link.keys().cmp(&other.link.keys()),
            Ordering::Greater => Ordering::Greater,
        }
    }

    ghost total = { keyed_total };
}

// The key of a hub with a hash key; the missing key where no row has it.
fn key_of<'a>(vault: &'a Vault, missing: &'a [Key], hub: u32, digest: &Digest) -> &'a Key
    requires hub { hub < length vault.now.mapping.hubs }
    requires missing { missing.now ≡ contents.missing_keys vault.now.mapping }
    ensures { result.now ≡ key_read vault.now.mapping vault.now.tables hub digest.now }
{
    match vault.hub(hub).key(digest) {
        Some(key) => key,
        None => &missing[hub as usize],
    }
}

// The keys of hubs with hash keys, hub by hub.
fn keys_of<'a>(
    alloc: Global,
    vault: &'a Vault,
    missing: &'a [Key],
    hubs: &[u32],
    digests: &[Digest],
) -> Result<List<&'a Key>, Memory>
    requires hubs { IsTrue (list_all (λ hub. nat_lt hub (length vault.now.mapping.hubs)) hubs.now) }
    requires missing { missing.now ≡ contents.missing_keys vault.now.mapping }
    ensures { IfOk result (λ keys. map (λ key. key.now) keys ≡ keys_read vault.now.mapping vault.now.tables hubs.now digests.now) }
{
    let mut keys = List::with_room(alloc, hubs.len())?;
    for (hub, digest) in hubs.iter().zip(digests) {
        keys.push(key_of(vault, missing, *hub, digest))?;
    }
    Ok(keys)
}

// The links of a feed with their keys.
fn fronts_of<'a>(
    alloc: Global,
    vault: &'a Vault,
    missing: &'a [Key],
    hubs: &[u32],
    links: &[PathLink<'a>],
) -> Result<Vec<Front<'a>>, Memory>
    requires hubs { IsTrue (list_all (λ hub. nat_lt hub (length vault.now.mapping.hubs)) hubs.now) }
    requires missing { missing.now ≡ contents.missing_keys vault.now.mapping }
    ensures { IfOk result (λ fronts. fronts.items ≡ map (λ link. spec.keyed_row vault.now.mapping vault.now.tables hubs.now link.row) links.now) }
{
    let mut fronts = Vec::with_capacity(alloc, links.len())?;
    for link in links {
        let row = link.row();
        let keys = keys_of(alloc, vault, missing, hubs, row.hubs.items())?;
        fronts.push(Front::of(PathLink { row, keys }))?;
    }
    Ok(fronts)
}

// The links alone.
fn links_alone<'a>(alloc: Global, fronts: List<Front<'a>>) -> Result<List<PathLink<'a>>, Memory>
    ensures { IfOk result (λ links. links ≡ fronts.entry) }
{
    let mut links = List::with_room(alloc, fronts.items().len())?;
    for front in fronts.into_vec()? {
        links.push(front.into_link())?;
    }
    Ok(links)
}

// The links of a feed with their keys, in the order of these, each once.
fn sorted_links<'a>(
    alloc: Global,
    vault: &'a Vault,
    missing: &'a [Key],
    feed: u32,
    date: Stamp,
) -> Result<List<PathLink<'a>>, Memory>
    requires feed { IsTrue (is_link_feed (slice_get vault.now.mapping.feeds feed)) }
    requires missing { missing.now ≡ contents.missing_keys vault.now.mapping }
    ensures { IfOk result (λ links. links ≡ spec.keyed_links vault.now.mapping vault.now.tables date feed) }
{
    let links = feed_links(alloc, vault, feed, date)?;
    let hubs = feed_hubs(vault.catalog(), feed);
    let fronts = fronts_of(alloc, vault, missing, hubs, links.items())?;
    links_alone(alloc, sorted_firsts(fronts)?)
}

/// The links of each of some feeds at a date with their keys, in the order of these, each once.
pub(crate) fn all_sorted_links<'a>(
    alloc: Global,
    vault: &'a Vault,
    missing: &'a [Key],
    feeds: &[u32],
    date: Stamp,
) -> Result<Vec<List<PathLink<'a>>>, Memory>
    requires feeds { IsTrue (list_all (λ feed. is_link_feed (slice_get vault.now.mapping.feeds feed)) feeds.now) }
    requires missing { missing.now ≡ contents.missing_keys vault.now.mapping }
    ensures { IfOk result (λ all. all.items ≡ map (spec.keyed_links vault.now.mapping vault.now.tables date) feeds.now) }
{
    let mut all = Vec::with_capacity(alloc, feeds.len())?;
    for feed in feeds {
        all.push(sorted_links(alloc, vault, missing, *feed, date)?)?;
    }
    Ok(all)
}
