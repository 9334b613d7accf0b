// Lent reference lists with their hash keys, in order.
ghost use Rattle.std.specs.Prelude.{◌≡◌, ◌∷◌, ◌++◌, [], IfOk, IsTrue, OnOk, map};
ghost use Rattle.std.specs.Ordering.{nat_cmp, ordering_then};
ghost use Rattle.dv_text.specs.Keys.{hashes_of};
ghost use Rattle.dv_text.specs.Orders.{refs_cmp};
ghost use Rattle.dv_digest.specs.Fits.{refs_fit};
ghost use Rattle.dv_records.specs.Deltas.{AreHashed, delivered};
ghost use Rattle.dv_hub_link.specs.HashedLists as spec;

use dv_digest::{Room, hash_key};
use dv_records::{HashedDelivery, Ranked, sorted_firsts};
use dv_text::{Digest, Key, KeyDigest, List, Memory};
use std::alloc::Global;
use std::cmp::Ordering;

/// A reference list with its hash key and the feed that delivers it, in the order of the hash keys, and then
/// of the lists. The list is lent from where it stands in the window.
#[derive(Debug, Drop)]
pub(crate) struct LentList<'a> {
    pub(crate) digest: Digest,
    pub(crate) refs: &'a [Key],
    pub(crate) feed: u32,
}

// The order of lists with one hash key.
fn compared_beyond(a: &LentList, b: &LentList) -> Ordering
    ensures { result ≡ ordering_then (refs_cmp a.now.refs.now b.now.refs.now) (nat_cmp a.now.feed b.now.feed) }
{
    match a.refs.cmp(&b.refs) {
        Ordering::Less => Ordering::Less,
        Ordering::Equal => a.feed.cmp(&b.feed),
        Ordering::Greater => Ordering::Greater,
    }
}

impl<'a> Ranked for LentList<'a> {
    ghost use Rattle.dv_hub_link.specs.HashedOrder.{lent_cmp, lent_total};

    ghost rank_cmp = { lent_cmp };

    fn compared(&self, other: &LentList<'a>) -> Ordering {
        match self.digest.cmp(&other.digest) {
            Ordering::Less => Ordering::Less,
            Ordering::Equal => compared_beyond(self, other),
            Ordering::Greater => Ordering::Greater,
        }
    }

    ghost total = { lent_total };
}

// Puts the list of missing keys at the end, as one of the feed.
fn add_missing<'a, H: KeyDigest>(
    alloc: Global,
    made: &mut Vec<LentList<'a>>,
    refs: &'a [Key],
    feed: u32,
    digest: &H,
) -> Result<(), Memory>
    requires { IsTrue (refs_fit refs.now) }
    ensures { OnOk result (map spec.told made.new.items ≡ map spec.told made.old.items ++ spec.hashed_list (hashes_of H.function) refs.now feed ∷ []) }
{
    let mut room = Room::new(alloc)?;
    let digest = hash_key(digest, refs, &mut room);
    put(made, LentList { digest, refs, feed })
}

// Puts an item at the end.
fn put<T: Drop>(made: &mut Vec<T>, item: T) -> Result<(), Memory>
    ensures { OnOk result (made.new.items ≡ made.old.items ++ item ∷ []) }
{
    made.push(item)?;
    Ok(())
}

// Puts the list of a delivery at the end.
fn add_item<'a>(made: &mut Vec<LentList<'a>>, item: &'a HashedDelivery<'_>) -> Result<(), Memory>
    ensures { OnOk result (map spec.told made.new.items ≡ map spec.told made.old.items ++ spec.list_beside item.now ∷ []) }
{
    let list = LentList {
        digest: item.digest,
        refs: item.refs,
        feed: item.feed,
    };
    put(made, list)
}

// Puts the lists of deliveries at the end of a list.
fn add_items<'a>(
    made: &mut Vec<LentList<'a>>,
    items: &'a [HashedDelivery<'_>],
) -> Result<(), Memory>
    ensures { OnOk result (map spec.told made.new.items ≡ map spec.told made.old.items ++ map spec.list_beside items.now) }
{
    for item in items {
        add_item(made, item)?;
    }
    Ok(())
}

/// The list of missing keys, as one of the feed, and those of deliveries, all with their hash keys, in order.
pub(crate) fn hashed_lists<'a, H: KeyDigest>(
    alloc: Global,
    missing: &'a List<Key>,
    feed: u32,
    items: &'a [HashedDelivery<'_>],
    digest: &H,
) -> Result<List<LentList<'a>>, Memory>
    requires missing { IsTrue (refs_fit missing.now) }
    requires hashed { AreHashed (hashes_of H.function) items.now }
    ensures { IfOk result (λ made. map spec.told made ≡ spec.hashed_lists (hashes_of H.function) missing.now feed (delivered items.now)) }
{
    let mut made = Vec::new(alloc);
    add_missing(alloc, &mut made, missing.items(), feed, digest)?;
    add_items(&mut made, items)?;
    let lists = sorted_firsts(made)?;
    Ok(lists)
}
