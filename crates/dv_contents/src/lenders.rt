// What lends the rows of contents, and the reference lists that it lends.
ghost use Rattle.std.specs.Prelude.{◌≡◌, ◌<◌, IfOk, IsTrue, Some, length, map, nat_lt, option_map, slice_get};
ghost use Rattle.std.specs.List.{list_all};
ghost use Rattle.dv_catalog.specs.Feeds.{parent_hubs};
ghost use Rattle.dv_catalog.specs.Mappings.{is_valid};
ghost use Rattle.dv_records.specs.ReadBack as spec;
ghost use Rattle.dv_contents.specs.Contents as contents;
ghost use Rattle.dv_vault.specs.Vaults.{IsVaultOf, is_parent};

use dv_catalog::{Catalog, FeedDef, Parent};
use dv_hub_link::missing_key;
use dv_text::{Digest, Key, List, Memory};
use dv_vault::Vault;
use std::alloc::Global;

/// A vault, and the missing key of each hub.
#[derive(Drop)]
pub(crate) struct Lender<'a> {
    pub(crate) alloc: Global,
    pub(crate) vault: &'a Vault,
    pub(crate) missing: &'a [Key],
    ghost valid: { IsTrue (is_valid vault.now.mapping) },
    ghost tables_are: { IsVaultOf vault.now.mapping vault.now.tables },
    ghost missing_are: { missing.now ≡ contents.missing_keys vault.now.mapping },
}

// The missing key of each hub of a mapping, in declared order.
fn missing_keys_of(alloc: Global, catalog: &Catalog) -> Result<List<Key>, Memory>
    ensures { IfOk result (λ keys. keys ≡ contents.missing_keys catalog.now) }
{
    let mut keys = List::new(alloc);
    for hub in 0..catalog.hub_count() {
        keys.push(missing_key(alloc, catalog, hub)?)?;
    }
    Ok(keys)
}

/// For each hub of a vault, in declared order, the key that stands for a reference which is missing: all its
/// parts are empty.
pub fn missing_keys(vault: &Vault) -> Result<List<Key>, Memory>
    ensures { IfOk result (λ keys. keys ≡ contents.missing_keys vault.now.mapping) }
{
    missing_keys_of(vault.heads().allocator(), vault.catalog())
}

impl<'a> Lender<'a> {
    /// What lends a vault's contents. Condition: the missing keys are those of its hubs. Takes no memory.
    pub(crate) fn new(vault: &'a Vault, missing: &'a [Key]) -> Lender<'a>
        requires { missing.now ≡ contents.missing_keys vault.now.mapping }
        ensures { result.vault.now ≡ vault.now }
    {
        let _catalog = vault.catalog();
        Lender {
            alloc: vault.heads().allocator(),
            vault,
            missing,
        }
    }

    /// What a feed is: its parent is in the mapping. Takes no memory.
    pub(crate) fn feed(&self, feed: u32) -> &'a FeedDef
        requires { feed < length self.now.vault.now.mapping.feeds }
        ensures definition { slice_get self.now.vault.now.mapping.feeds feed ≡ Some result.now }
        ensures parent { IsTrue (is_parent self.now.vault.now.mapping result.now.parent) }
    {
        let vault = self.vault;
        vault.catalog().feed(feed)
    }

    /// The hubs of a link, which are in the mapping. Takes no memory.
    pub(crate) fn link_hubs(&self, link: u32) -> &'a [u32]
        requires { link < length self.now.vault.now.mapping.links }
        ensures value { result.now ≡ parent_hubs self.now.vault.now.mapping (Parent.Link link) }
        ensures declared { IsTrue (list_all (λ hub. nat_lt hub (length self.now.vault.now.mapping.hubs)) result.now) }
    {
        let vault = self.vault;
        vault.catalog().link(link).hubs.items()
    }

    // The missing key of a hub.
    fn missing_of(&self, hub: u32) -> &'a Key
        requires { hub < length self.now.vault.now.mapping.hubs }
        ensures { result.now ≡ spec.missing_key self.now.vault.now.mapping hub }
    {
        let missing = self.missing;
        &missing[hub as usize]
    }

    // The key of a hub with a hash key; the missing key where no row has it.
    fn key(&self, hub: u32, digest: &Digest) -> &'a Key
        requires { hub < length self.now.vault.now.mapping.hubs }
        ensures { result.now ≡ spec.key_read self.now.vault.now.mapping self.now.vault.now.tables hub digest.now }
    {
        let vault = self.vault;
        match vault.hub(hub).key(digest) {
            Some(key) => key,
            None => self.missing_of(hub),
        }
    }

    /// The keys of a link's hubs with the hash keys of a link row.
    pub(crate) fn keys(&self, hubs: &[u32], digests: &[Digest]) -> Result<List<&'a Key>, Memory>
        requires { IsTrue (list_all (λ hub. nat_lt hub (length self.now.vault.now.mapping.hubs)) hubs.now) }
        ensures { IfOk result (λ keys. map (λ key. key.now) keys ≡ spec.keys_read self.now.vault.now.mapping self.now.vault.now.tables hubs.now digests.now) }
    {
        let mut keys = List::with_room(self.alloc, hubs.len())?;
        for (hub, digest) in hubs.iter().zip(digests) {
            keys.push(self.key(*hub, digest))?;
        }
        Ok(keys)
    }

    /// The reference list of a parent; none where no row has its hash key.
    pub(crate) fn refs(
        &self,
        parent: Parent,
        digest: &Digest,
    ) -> Result<Option<List<&'a Key>>, Memory>
        requires { IsTrue (is_parent self.now.vault.now.mapping parent) }
        ensures { IfOk result (λ refs. option_map (map (λ key. key.now)) refs ≡ spec.refs_read self.now.vault.now.mapping self.now.vault.now.tables parent digest.now) }
    {
        let vault = self.vault;
        match parent {
            Parent::Hub(hub) => {
                let Some(key) = vault.hub(hub).key(digest) else {
                    return Ok(None);
                };
                let mut refs = List::with_room(self.alloc, 1)?;
                refs.push(key)?;
                Ok(Some(refs))
            }
            Parent::Link(link) => {
                let Some(digests) = vault.link(link).hubs(digest) else {
                    return Ok(None);
                };
                let refs = self.keys(self.link_hubs(link), digests.items())?;
                Ok(Some(refs))
            }
        }
    }
}
