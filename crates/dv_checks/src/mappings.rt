//! From what a mapping file declares to the mapping: each name becomes the place of what it names.

ghost use Rattle.std.specs.Prelude.{◌≡◌, ◌≢◌, ◌^◌, ◌<◌, Err, IfErr, IfOk, IsTrue, None, Ok, length, map};
ghost use Rattle.std.specs.List.{position_or_len};
ghost use Rattle.std.specs.Str.{bytes_eq};
ghost use Rattle.dv_catalog.specs.Checks.{fault_of, reference_hubs};
ghost use Rattle.dv_catalog.specs.Mappings as spec;

use crate::checks;
use crate::feed_checks::reference_hubs;
use dv_catalog::lookups::{Named, place_of};
use dv_catalog::{
    Catalog, FeedDef, FeedOutline, HubDef, HubOutline, LinkDef, LinkOutline, MapError, Outline,
    Parent, ParentName, PathDef, PathOutline,
};
use dv_text::{List, Memory, Text};
use std::alloc::Global;

fn places<T: Named>(alloc: Global, entries: &[T], names: &[Text]) -> Result<List<u32>, Memory>
    requires { length entries.now < 2 ^ 32 }
    ensures { IfOk result (λ places. places ≡ map (λ name. position_or_len (λ entry. bytes_eq (T.name_of entry) name) entries.now) names.now) }
{
    let mut places = List::new(alloc);
    for name in names {
        places.push(place_of(entries, name))?;
    }
    Ok(places)
}

fn hub_defs(alloc: Global, hubs: List<HubOutline>) -> Result<List<HubDef>, Memory>
    ensures { IfOk result (λ defs. defs ≡ map spec.hub_def hubs) }
{
    let mut defs = List::new(alloc);
    for hub in hubs.into_vec()? {
        let HubOutline { name, parts } = hub;
        defs.push(HubDef { name, parts })?;
    }
    Ok(defs)
}

fn link_def(alloc: Global, hubs: &[HubOutline], link: LinkOutline) -> Result<LinkDef, Memory>
    requires { length hubs.now < 2 ^ 32 }
    ensures { IfOk result (λ def. def ≡ spec.link_def hubs.now link) }
{
    let LinkOutline { name, hubs: named } = link;
    let hubs = places(alloc, hubs, named.items())?;
    Ok(LinkDef { name, hubs })
}

fn link_defs(
    alloc: Global,
    hubs: &[HubOutline],
    links: List<LinkOutline>,
) -> Result<List<LinkDef>, Memory>
    requires { length hubs.now < 2 ^ 32 }
    ensures { IfOk result (λ defs. defs ≡ map (spec.link_def hubs.now) links) }
{
    let mut defs = List::new(alloc);
    for link in links.into_vec()? {
        defs.push(link_def(alloc, hubs, link)?)?;
    }
    Ok(defs)
}

fn parent_def(hubs: &[HubOutline], links: &[LinkOutline], parent: &ParentName) -> Parent
    requires hubs_few { length hubs.now < 2 ^ 32 }
    requires links_few { length links.now < 2 ^ 32 }
    ensures { result ≡ spec.parent_def hubs.now links.now parent.now }
{
    match parent {
        ParentName::Hub(name) => Parent::Hub(place_of(hubs, name)),
        ParentName::Link(name) => Parent::Link(place_of(links, name)),
    }
}

fn driver_places(
    alloc: Global,
    links: &[LinkOutline],
    feed: &FeedOutline,
) -> Result<List<u32>, Memory>
    requires { length (reference_hubs links.now feed.now.parent) < 2 ^ 32 }
    ensures { IfOk result (λ places. places ≡ map (spec.reference_place (reference_hubs links.now feed.now.parent)) feed.now.driver) }
{
    let places = places(
        alloc,
        reference_hubs(links, &feed.parent),
        feed.driver.items(),
    )?;
    Ok(places)
}

fn feed_def(
    alloc: Global,
    hubs: &[HubOutline],
    links: &[LinkOutline],
    feed: FeedOutline,
) -> Result<FeedDef, Memory>
    requires hubs_few { length hubs.now < 2 ^ 32 }
    requires links_few { length links.now < 2 ^ 32 }
    requires references_few { length (reference_hubs links.now feed.parent) < 2 ^ 32 }
    ensures { IfOk result (λ def. def ≡ spec.feed_def hubs.now links.now feed) }
{
    let place = parent_def(hubs, links, &feed.parent);
    let driving = driver_places(alloc, links, &feed)?;
    let FeedOutline {
        name,
        source,
        parent: _,
        keys,
        sub,
        attrs,
        ignore,
        driver: _,
    } = feed;
    Ok(FeedDef {
        name,
        source,
        parent: place,
        keys,
        sub,
        attrs,
        ignore,
        driver: driving,
    })
}

fn feed_defs(
    alloc: Global,
    hubs: &[HubOutline],
    links: &[LinkOutline],
    feeds: List<FeedOutline>,
) -> Result<List<FeedDef>, Memory>
    requires hubs_few { length hubs.now < 2 ^ 32 }
    requires links_few { length links.now < 2 ^ 32 }
    requires references_few { (parent : _) → length (reference_hubs links.now parent) < 2 ^ 32 }
    ensures { IfOk result (λ defs. defs ≡ map (spec.feed_def hubs.now links.now) feeds) }
{
    let mut defs = List::new(alloc);
    for feed in feeds.into_vec()? {
        defs.push(feed_def(alloc, hubs, links, feed)?)?;
    }
    Ok(defs)
}

fn path_def(
    alloc: Global,
    hubs: &[HubOutline],
    feeds: &[FeedOutline],
    path: PathOutline,
) -> Result<PathDef, Memory>
    requires hubs_few { length hubs.now < 2 ^ 32 }
    requires feeds_few { length feeds.now < 2 ^ 32 }
    ensures { IfOk result (λ def. def ≡ spec.path_def hubs.now feeds.now path) }
{
    let PathOutline {
        name,
        feeds: named,
        via,
    } = path;
    let feeds = places(alloc, feeds, named.items())?;
    let via = places(alloc, hubs, via.items())?;
    Ok(PathDef { name, feeds, via })
}

fn path_defs(
    alloc: Global,
    hubs: &[HubOutline],
    feeds: &[FeedOutline],
    paths: List<PathOutline>,
) -> Result<List<PathDef>, Memory>
    requires hubs_few { length hubs.now < 2 ^ 32 }
    requires feeds_few { length feeds.now < 2 ^ 32 }
    ensures { IfOk result (λ defs. defs ≡ map (spec.path_def hubs.now feeds.now) paths) }
{
    let mut defs = List::new(alloc);
    for path in paths.into_vec()? {
        defs.push(path_def(alloc, hubs, feeds, path)?)?;
    }
    Ok(defs)
}

// The mapping that an outline without a fault declares.
fn mapping_of(alloc: Global, outline: Outline) -> Result<Catalog, Memory>
    requires faultless { fault_of outline ≡ None }
    requires formed { IsTrue (spec.has_shape outline) }
    ensures { IfOk result (λ catalog. catalog ≡ spec.mapping_of outline) }
{
    let Outline {
        hubs,
        links,
        feeds,
        paths,
    } = outline;
    let paths = path_defs(alloc, hubs.items(), feeds.items(), paths)?;
    let feeds = feed_defs(alloc, hubs.items(), links.items(), feeds)?;
    let links = link_defs(alloc, hubs.items(), links)?;
    let hubs = hub_defs(alloc, hubs)?;
    Ok(Catalog::new(hubs, links, feeds, paths))
}

/// The mapping that an outline declares, or its first fault. Want of memory is `MapError::Memory`.
pub fn catalog_of(alloc: Global, outline: Outline) -> Result<Catalog, MapError>
    requires { IsTrue (spec.has_shape outline) }
    ensures ok { IfOk result (λ catalog. spec.checked outline ≡ Ok catalog) }
    ensures err { IfErr result (λ fault. fault ≢ MapError.Memory → spec.checked outline ≡ Err fault) }
{
    match checks::fault_of(alloc, &outline)? {
        Some(fault) => Err(fault),
        None => {
            let catalog = mapping_of(alloc, outline)?;
            Ok(catalog)
        }
    }
}
