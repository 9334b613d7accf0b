ghost use Rattle.std.specs.Prelude.{◌≡◌, ◌↔◌, ◌<◌, ◌≤◌, IsTrue, Some, length, position, slice_get};
ghost use Rattle.std.specs.Str.{bytes_eq};
ghost use Rattle.dv_catalog.specs.Limits.{most_feeds};
ghost use Rattle.dv_catalog.specs.Mappings.{is_valid};

use crate::entries::{FeedDef, HubDef, LinkDef, PathDef};
use crate::lookups::find_place;
use dv_text::{List, Text};
use std::alloc::Global;
use std::marker::Model;

/// A mapping that was read. Contracts see it as its entries in declared order.
#[derive(Debug, Drop)]
pub struct Catalog {
    hubs: List<HubDef>,
    links: List<LinkDef>,
    feeds: List<FeedDef>,
    paths: List<PathDef>,
}

impl Model for Catalog {
    ghost use Rattle.std.specs.Prelude.{IsTrue};
    ghost use Rattle.dv_catalog.specs.Entries.{Mapping};
    ghost use Rattle.dv_catalog.specs.Mappings.{is_valid};

    ghost Value = { Mapping };

    ghost view = { λ c. record { hubs = c.hubs; links = c.links; feeds = c.feeds; paths = c.paths } };

    ghost invariant = { λ c. IsTrue (is_valid (record { hubs = c.hubs; links = c.links; feeds = c.feeds; paths = c.paths })) };
}

fn same_hubs(some: &List<HubDef>, other: &List<HubDef>) -> bool
    ensures { IsTrue result ↔ (some.now ≡ other.now) }
{
    some == other
}

fn same_links(some: &List<LinkDef>, other: &List<LinkDef>) -> bool
    ensures { IsTrue result ↔ (some.now ≡ other.now) }
{
    some == other
}

fn same_feeds(some: &List<FeedDef>, other: &List<FeedDef>) -> bool
    ensures { IsTrue result ↔ (some.now ≡ other.now) }
{
    some == other
}

fn same_paths(some: &List<PathDef>, other: &List<PathDef>) -> bool
    ensures { IsTrue result ↔ (some.now ≡ other.now) }
{
    some == other
}

impl Catalog {
    pub fn new(
        hubs: List<HubDef>,
        links: List<LinkDef>,
        feeds: List<FeedDef>,
        paths: List<PathDef>,
    ) -> Catalog
        requires { IsTrue (is_valid (record { hubs = hubs; links = links; feeds = feeds; paths = paths })) }
        ensures { result ≡ record { hubs = hubs; links = links; feeds = feeds; paths = paths } }
    {
        Catalog {
            hubs,
            links,
            feeds,
            paths,
        }
    }

    /// The allocator that the mapping keeps: there is one, so no clause says which. Takes no memory.
    pub fn allocator(&self) -> Global {
        self.hubs.allocator()
    }

    /// Whether both catalogs have equal definitions in equal order. Takes no memory.
    pub fn same(&self, other: &Catalog) -> bool
        ensures { IsTrue result ↔ (self.now ≡ other.now) }
    {
        same_hubs(&self.hubs, &other.hubs)
            && same_links(&self.links, &other.links)
            && same_feeds(&self.feeds, &other.feeds)
            && same_paths(&self.paths, &other.paths)
    }

    /// Does nothing: a call tells a proof that the mapping is valid.
    pub fn note_valid(&self)
        ensures { IsTrue (is_valid self.now) }
    {
        let _hubs = &self.hubs;
    }

    /// The number of hubs. Takes no memory.
    #[tactic(auto, using(crate::proofs::ValidReads::valid_parts))]
    pub fn hub_count(&self) -> u32
        ensures value { result ≡ length self.now.hubs }
        ensures valid { IsTrue (is_valid self.now) }
    {
        self.hubs.items().len() as u32
    }

    /// The number of links. Takes no memory.
    #[tactic(auto, using(crate::proofs::ValidReads::valid_parts))]
    pub fn link_count(&self) -> u32
        ensures value { result ≡ length self.now.links }
        ensures valid { IsTrue (is_valid self.now) }
    {
        self.links.items().len() as u32
    }

    /// The number of feeds. Takes no memory.
    #[tactic(auto, using(crate::proofs::ValidReads::valid_parts))]
    pub fn feed_count(&self) -> u32
        ensures value { result ≡ length self.now.feeds }
        ensures valid { IsTrue (is_valid self.now) }
    {
        self.feeds.items().len() as u32
    }

    /// The number of paths. Takes no memory.
    #[tactic(auto, using(crate::proofs::ValidReads::valid_parts))]
    pub fn path_count(&self) -> u32
        ensures value { result ≡ length self.now.paths }
        ensures valid { IsTrue (is_valid self.now) }
    {
        self.paths.items().len() as u32
    }

    /// The place of the hub with a name; none exactly where no such hub is declared. Takes no memory.
    #[tactic(auto, using(crate::proofs::ValidReads::valid_parts))]
    pub fn find_hub(&self, name: &Text) -> Option<u32>
        ensures { result ≡ position (λ hub. bytes_eq hub.name name.now) self.now.hubs }
    {
        find_place(self.hubs.items(), name)
    }

    /// The place of the feed with a name; none exactly where no such feed is declared. Takes no memory.
    #[tactic(auto, using(crate::proofs::ValidReads::valid_parts))]
    pub fn find_feed(&self, name: &Text) -> Option<u32>
        ensures { result ≡ position (λ feed. bytes_eq feed.name name.now) self.now.feeds }
    {
        find_place(self.feeds.items(), name)
    }

    /// The place of the path with a name; none exactly where no such path is declared. Takes no memory.
    #[tactic(auto, using(crate::proofs::ValidReads::valid_parts))]
    pub fn find_path(&self, name: &Text) -> Option<u32>
        ensures { result ≡ position (λ path. bytes_eq path.name name.now) self.now.paths }
    {
        find_place(self.paths.items(), name)
    }

    pub fn hubs(&self) -> &[HubDef]
        ensures { result.now ≡ self.now.hubs }
    {
        self.hubs.items()
    }

    pub fn links(&self) -> &[LinkDef]
        ensures { result.now ≡ self.now.links }
    {
        self.links.items()
    }

    #[tactic(auto, using(crate::proofs::ValidReads::valid_parts))]
    pub fn feeds(&self) -> &[FeedDef]
        ensures value { result.now ≡ self.now.feeds }
        ensures few { length result.now ≤ most_feeds }
    {
        self.feeds.items()
    }

    /// The hub at a place in declared order, from 0. Takes no memory.
    pub fn hub(&self, i: u32) -> &HubDef
        requires { i < length self.now.hubs }
        ensures { slice_get self.now.hubs i ≡ Some result.now }
    {
        &self.hubs.items()[i as usize]
    }

    /// The link at a place in declared order, from 0. Takes no memory.
    pub fn link(&self, i: u32) -> &LinkDef
        requires { i < length self.now.links }
        ensures { slice_get self.now.links i ≡ Some result.now }
    {
        &self.links.items()[i as usize]
    }

    /// The feed at a place in declared order, from 0. Takes no memory.
    pub fn feed(&self, i: u32) -> &FeedDef
        requires { i < length self.now.feeds }
        ensures { slice_get self.now.feeds i ≡ Some result.now }
    {
        &self.feeds.items()[i as usize]
    }

    /// The path at a place in declared order, from 0. Takes no memory.
    pub fn path(&self, i: u32) -> &PathDef
        requires { i < length self.now.paths }
        ensures { slice_get self.now.paths i ≡ Some result.now }
    {
        &self.paths.items()[i as usize]
    }
}
