// The keys that the hubs name: they tell the reference lists that a link's rows stand for.
ghost use Rattle.std.specs.Prelude.{◌≡◌, IfOk};
ghost use Rattle.std.specs.List.{list_all, zip};
ghost use Rattle.dv_text.specs.Keys.{key_eq, refs_eq};
ghost use Rattle.dv_records.specs.ReadBack as read_back;
ghost use Rattle.dv_hub_link.specs.LinkLists as spec;

use crate::missing_keys::{missing_key, part_count};
use crate::told_lists::TellsLists;
use dv_catalog::Catalog;
use dv_records::{HubNames, LinkRow};
use dv_text::{Digest, Duplicate, Key, List, Memory};
use std::alloc::Global;

/// What tells the keys of hubs, and the hubs of the link.
#[derive(Drop)]
pub(crate) struct NamedKeys<'a, N: HubNames> {
    pub(crate) names: &'a N,
    pub(crate) catalog: &'a Catalog,
    pub(crate) hubs: &'a [u32],
}

// Whether a key is the missing key of a hub.
#[tactic(auto, using(crate::proofs::Keys::missing_same))]
fn is_missing_key(catalog: &Catalog, hub: u32, key: &Key) -> bool
    ensures { result ≡ key_eq (read_back.missing_key catalog.now hub) key.now }
{
    let parts = key.parts.items();
    parts.len() == part_count(catalog, hub) as usize && key.is_missing()
}

// Whether a digest stands for a key in a hub.
fn stands_for<N: HubNames>(
    catalog: &Catalog,
    names: &N,
    hub: u32,
    digest: &Digest,
    key: &Key,
) -> bool
    ensures { result ≡ key_eq (spec.key_under catalog.now (N.names names.now) hub digest.now) key.now }
{
    match names.name(hub, digest) {
        None => is_missing_key(catalog, hub, key),
        Some(named) => named == key,
    }
}

// The key that a digest stands for in a hub.
fn key_under<N: HubNames>(
    alloc: Global,
    catalog: &Catalog,
    names: &N,
    hub: u32,
    digest: &Digest,
) -> Result<Key, Memory>
    ensures { IfOk result (λ key. key ≡ spec.key_under catalog.now (N.names names.now) hub digest.now) }
{
    match names.name(hub, digest) {
        None => missing_key(alloc, catalog, hub),
        Some(named) => named.copy(),
    }
}

// Whether each digest stands for the key beside it, in its hub.
fn each_stands_for<N: HubNames>(
    catalog: &Catalog,
    names: &N,
    hubs: &[u32],
    digests: &[Digest],
    refs: &[Key],
) -> bool
    ensures { result ≡ list_all (λ ((hub, digest), key). key_eq (spec.key_under catalog.now (N.names names.now) hub digest) key) (zip (zip hubs.now digests.now) refs.now) }
{
    hubs.iter().zip(digests).zip(refs).all(|((hub, digest), key)| stands_for(
        catalog, names, *hub, digest, key,
    ))
}

// Whether digests stand for a reference list.
fn stand_for<N: HubNames>(
    catalog: &Catalog,
    names: &N,
    hubs: &[u32],
    digests: &[Digest],
    refs: &[Key],
) -> bool
    ensures { result ≡ refs_eq (spec.keys_under catalog.now (N.names names.now) hubs.now digests.now) refs.now }
{
    refs.len() == hubs.len().min(digests.len())
        && each_stands_for(catalog, names, hubs, digests, refs)
}

// The keys that digests stand for, each in its hub.
fn keys_under<N: HubNames>(
    alloc: Global,
    catalog: &Catalog,
    names: &N,
    hubs: &[u32],
    digests: &[Digest],
) -> Result<List<Key>, Memory>
    ensures { IfOk result (λ refs. refs ≡ spec.keys_under catalog.now (N.names names.now) hubs.now digests.now) }
{
    let mut refs = List::new(alloc);
    for (hub, digest) in hubs.iter().zip(digests) {
        refs.push(key_under(alloc, catalog, names, *hub, digest)?)?;
    }
    Ok(refs)
}

impl<'a, N: HubNames> TellsLists<LinkRow> for NamedKeys<'a, N> {
    ghost use Rattle.dv_hub_link.specs.LinkLists.{keys_under};

    ghost list = { λ t row. keys_under t.catalog.now (N.names t.names.now) t.hubs.now row.hubs };

    fn stands_for(&self, row: &LinkRow, refs: &[Key]) -> bool {
        stand_for(self.catalog, self.names, self.hubs, row.hubs.items(), refs)
    }

    fn told(&self, alloc: Global, row: &LinkRow) -> Result<List<Key>, Memory> {
        let refs = keys_under(alloc, self.catalog, self.names, self.hubs, row.hubs.items())?;
        Ok(refs)
    }
}
