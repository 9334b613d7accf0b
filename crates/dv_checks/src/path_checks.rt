//! The check of paths.

ghost use Rattle.std.specs.Prelude.{◌≡◌, ◌+◌, IfOk, find, is_some, length, not, option_map};
ghost use Rattle.std.specs.List.{list_all};
ghost use Rattle.dv_catalog.specs.Checks as spec;

use crate::feed_checks::link_hub_names;
use dv_catalog::lookups::{find_named, has_name};
use dv_catalog::{MapError, Outline, ParentName, PathOutline};
use dv_text::{Duplicate, Memory, Text};

fn step_hubs<'a>(outline: &'a Outline, name: &Text) -> Option<&'a [Text]>
    ensures { option_map (λ hubs. hubs.now) result ≡ spec.step_hubs outline.now name.now }
{
    match find_named(outline.feeds.items(), name) {
        Some(feed) => match &feed.parent {
            ParentName::Hub(_) => None,
            ParentName::Link(link) => Some(link_hub_names(outline.links.items(), link)),
        },
        None => None,
    }
}

fn is_hub_of_step(outline: &Outline, hub: &Text, feed: &Text) -> bool
    ensures { result ≡ spec.is_hub_of_step outline.now hub.now feed.now }
{
    match step_hubs(outline, feed) {
        Some(hubs) => has_name(hubs, hub),
        None => false,
    }
}

fn deliver_links(outline: &Outline, feeds: &[Text]) -> bool
    ensures { result ≡ list_all (λ feed. is_some (spec.step_hubs outline.now feed)) feeds.now }
{
    feeds.iter().all(|feed| step_hubs(outline, feed).is_some())
}

#[tactic(auto, using(crate::proofs::PathSteps::joined_at_end))]
fn are_joined(outline: &Outline, feeds: &[Text], via: &[Text]) -> bool
    requires { length via.now + 1 ≡ length feeds.now }
    ensures { result ≡ spec.are_joined outline.now feeds.now via.now }
{
    for (i, hub) in via.iter().enumerate() {
        if !is_hub_of_step(outline, hub, &feeds[i])
            || !is_hub_of_step(outline, hub, &feeds[i + 1])
        {
            return false;
        }
    }
    true
}

fn is_path(outline: &Outline, path: &PathOutline) -> bool
    ensures { result ≡ spec.is_path outline.now path.now }
{
    let feeds = path.feeds.items();
    let via = path.via.items();
    !feeds.is_empty()
        && deliver_links(outline, feeds)
        && via.len() == feeds.len() - 1
        && are_joined(outline, feeds, via)
}

fn first_broken(outline: &Outline) -> Option<&PathOutline>
    ensures { option_map (λ path. path.now) result ≡ find (λ path. not (spec.is_path outline.now path)) outline.now.paths }
{
    outline
        .paths
        .items()
        .iter()
        .find(|path| !is_path(outline, path))
}

/// The feeds of a path are not joined by hubs.
pub(crate) fn path_broken(outline: &Outline) -> Result<Option<MapError>, Memory>
    ensures { IfOk result (λ fault. fault ≡ spec.path_broken outline.now) }
{
    match first_broken(outline) {
        Some(path) => Ok(Some(MapError::PathBroken {
            path: path.name.copy()?,
        })),
        None => Ok(None),
    }
}
