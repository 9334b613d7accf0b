//! The checks of what a feed says beside its keys: columns that tell rows apart, attributes, and driving keys.

ghost use Rattle.std.specs.Prelude.{◌≡◌, ◌==◌, ◌&&◌, IfOk, find, length, not, option_map};
ghost use Rattle.std.specs.List.{list_all};
ghost use Rattle.dv_catalog.specs.Checks as spec;
ghost use Rattle.dv_catalog.specs.Lookups.{is_among};

use crate::feed_checks::link_hub_names;
use dv_catalog::lookups::{has_name, name_again};
use dv_catalog::{FeedOutline, LinkOutline, MapError, Outline, ParentName};
use dv_text::{Duplicate, List, Memory, Text};

fn is_empty(texts: &List<Text>) -> bool
    ensures { result ≡ (length texts.now == 0) }
{
    texts.items().is_empty()
}

fn first_sub_alone(outline: &Outline) -> Option<&FeedOutline>
    ensures { option_map (λ feed. feed.now) result ≡ find (λ feed. not (length feed.sub == 0) && (length feed.attrs == 0)) outline.now.feeds }
{
    outline
        .feeds
        .items()
        .iter()
        .find(|feed| !is_empty(&feed.sub) && is_empty(&feed.attrs))
}

/// A feed has columns that tell rows apart, and no attributes.
pub(crate) fn sub_without_attrs(outline: &Outline) -> Result<Option<MapError>, Memory>
    ensures { IfOk result (λ fault. fault ≡ spec.sub_without_attrs outline.now) }
{
    match first_sub_alone(outline) {
        Some(feed) => Ok(Some(MapError::SubWithoutAttrs {
            feed: feed.name.copy()?,
        })),
        None => Ok(None),
    }
}

fn all_among(names: &[Text], some: &[Text]) -> bool
    ensures { result ≡ list_all (λ name. is_among names.now name) some.now }
{
    some.iter().all(|name| has_name(names, name))
}

fn are_some_hubs(hubs: &[Text], driver: &[Text]) -> bool
    ensures { result ≡ spec.are_some_hubs hubs.now driver.now }
{
    all_among(hubs, driver) && name_again(driver).is_none() && !all_among(driver, hubs)
}

fn driver_in_link(links: &[LinkOutline], feed: &FeedOutline) -> bool
    ensures { result ≡ spec.driver_in_link links.now feed.now.parent feed.now.driver }
{
    match &feed.parent {
        ParentName::Hub(_) => false,
        ParentName::Link(name) => are_some_hubs(link_hub_names(links, name), feed.driver.items()),
    }
}

fn first_undriven(outline: &Outline) -> Option<&FeedOutline>
    ensures { option_map (λ feed. feed.now) result ≡ find (λ feed. not (length feed.driver == 0) && not (spec.driver_in_link outline.now.links feed.parent feed.driver)) outline.now.feeds }
{
    let links = outline.links.items();
    outline.feeds.items().iter().find(|feed| !is_empty(&feed.driver)
        && !driver_in_link(links, feed))
}

/// A feed has driving keys that are not some hubs of its link, or are all of them.
pub(crate) fn driver_not_in_link(outline: &Outline) -> Result<Option<MapError>, Memory>
    ensures { IfOk result (λ fault. fault ≡ spec.driver_not_in_link outline.now) }
{
    match first_undriven(outline) {
        Some(feed) => Ok(Some(MapError::DriverNotInLink {
            feed: feed.name.copy()?,
        })),
        None => Ok(None),
    }
}

fn first_driver_with_sub(outline: &Outline) -> Option<&FeedOutline>
    ensures { option_map (λ feed. feed.now) result ≡ find (λ feed. not (length feed.driver == 0) && not (length feed.sub == 0)) outline.now.feeds }
{
    outline
        .feeds
        .items()
        .iter()
        .find(|feed| !is_empty(&feed.driver) && !is_empty(&feed.sub))
}

/// A feed has both driving keys and columns that tell rows apart.
pub(crate) fn driver_with_sub(outline: &Outline) -> Result<Option<MapError>, Memory>
    ensures { IfOk result (λ fault. fault ≡ spec.driver_with_sub outline.now) }
{
    match first_driver_with_sub(outline) {
        Some(feed) => Ok(Some(MapError::DriverWithSub {
            feed: feed.name.copy()?,
        })),
        None => Ok(None),
    }
}
