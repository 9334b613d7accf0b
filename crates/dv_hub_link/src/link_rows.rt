// The rows of a link.
ghost use Rattle.std.specs.Prelude.{◌≡◌, ◌<◌, ◌∷◌, [], IfOk, IsTrue, length, map, nat_lt};
ghost use Rattle.std.specs.List.{list_all};
ghost use Rattle.dv_text.specs.Keys.{hashes_of};
ghost use Rattle.dv_digest.specs.Fits.{refs_fit};
ghost use Rattle.dv_records.specs.Hubs.{each_hash};
ghost use Rattle.dv_hub_link.specs.HashedLists.{told};
ghost use Rattle.dv_hub_link.specs.NewRows.{link_row};

use crate::hashed_lists::LentList;
use dv_catalog::{Catalog, record_source};
use dv_digest::{Room, hash_key};
use dv_records::LinkRow;
use dv_text::{Digest, Key, KeyDigest, List, Memory, Stamp};
use std::alloc::Global;
use std::slice::from_ref;

// The hash key of a key alone.
fn key_hash<H: KeyDigest>(key: &Key, digest: &H, room: &mut Room) -> Digest
    requires { IsTrue (refs_fit (key.now ∷ [])) }
    ensures { result ≡ (hashes_of H.function).hash (key.now ∷ []) }
{
    hash_key(digest, from_ref(key), room)
}

// The hash key of each key alone.
fn each_key_hash<H: KeyDigest>(
    alloc: Global,
    refs: &[Key],
    digest: &H,
    room: &mut Room,
) -> Result<List<Digest>, Memory>
    requires { IsTrue (list_all (λ key. refs_fit (key ∷ [])) refs.now) }
    ensures { IfOk result (λ made. made ≡ each_hash (hashes_of H.function) refs.now) }
{
    let mut made = List::with_room(alloc, refs.len())?;
    for key in refs {
        made.push(key_hash(key, digest, room))?;
    }
    Ok(made)
}

#[tactic(auto, using(crate::proofs::Keys::each_fits))]
fn row_of<H: KeyDigest>(
    alloc: Global,
    load: Stamp,
    list: &LentList,
    catalog: &Catalog,
    digest: &H,
    room: &mut Room,
) -> Result<LinkRow, Memory>
    requires feed { list.now.feed < length catalog.now.feeds }
    requires fits { IsTrue (refs_fit list.now.refs.now) }
    ensures { IfOk result (λ row. row ≡ link_row catalog.now (hashes_of H.function) load (told list.now)) }
{
    let hubs = each_key_hash(alloc, list.refs, digest, room)?;
    let source = record_source(alloc, catalog.feed(list.feed))?;
    Ok(LinkRow {
        digest: list.digest,
        load,
        source,
        hubs,
    })
}

/// The rows of reference lists, in their order.
pub(crate) fn link_rows<H: KeyDigest>(
    alloc: Global,
    load: Stamp,
    lists: &[LentList],
    catalog: &Catalog,
    digest: &H,
) -> Result<List<LinkRow>, Memory>
    requires feeds { IsTrue (list_all (λ list. nat_lt list.feed (length catalog.now.feeds)) lists.now) }
    requires fits { IsTrue (list_all (λ list. refs_fit list.refs.now) lists.now) }
    ensures { IfOk result (λ made. made ≡ map (λ list. link_row catalog.now (hashes_of H.function) load (told list)) lists.now) }
{
    let mut room = Room::new(alloc)?;
    let mut rows = List::with_room(alloc, lists.len())?;
    for list in lists {
        rows.push(row_of(alloc, load, list, catalog, digest, &mut room)?)?;
    }
    Ok(rows)
}
