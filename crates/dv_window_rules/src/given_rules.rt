// The rules of the extracts as they are given: that there is one, for feeds of the mapping, each once.
ghost use Rattle.std.specs.Prelude.{◌≡◌, ◌∷◌, [], IfOk, find, map, not, option_map};
ghost use Rattle.std.specs.List.{list_any};
ghost use Rattle.std.specs.Str.{bytes_eq};
ghost use Rattle.dv_catalog.specs.FirstOf.{first_of};
ghost use Rattle.dv_records.specs.Outcomes as spec;

use dv_catalog::{Catalog, ExtractIn, Rule, WindowIn};
use dv_text::{Memory, Text};
use std::alloc::Global;

fn is_feed(catalog: &Catalog, name: &Text) -> bool
    ensures { result ≡ spec.is_feed catalog.now name.now }
{
    catalog.find_feed(name).is_some()
}

// The first extract whose feed isn't in the mapping.
fn first_unknown<'a>(catalog: &Catalog, extracts: &'a [ExtractIn]) -> Option<&'a ExtractIn>
    ensures { option_map (λ extract. extract.now) result ≡ find (λ extract. not (spec.is_feed catalog.now extract.feed)) extracts.now }
{
    extracts
        .iter()
        .find(|extract| !is_feed(catalog, &extract.feed))
}

fn unknown_feed(alloc: Global, catalog: &Catalog, given: &WindowIn) -> Result<Option<Rule>, Memory>
    ensures { IfOk result (λ rule. rule ≡ spec.unknown_feed catalog.now given.now) }
{
    let Some(extract) = first_unknown(catalog, given.extracts.items()) else {
        return Ok(None);
    };
    let name = Text::of(alloc, extract.feed.bytes())?;
    Ok(Some(Rule::UnknownFeed { name }))
}

// Whether an extract for this feed is among extracts.
fn is_among(extracts: &[ExtractIn], feed: &Text) -> bool
    ensures { result ≡ list_any (λ extract. bytes_eq feed.now extract.feed) extracts.now }
{
    extracts.iter().any(|extract| *feed == extract.feed)
}

// The first feed that stands earlier among those of the extracts.
fn repeated(extracts: &[ExtractIn]) -> Option<&Text>
    ensures { option_map (λ feed. feed.now) result ≡ spec.repeated_name [] (map (λ extract. extract.feed) extracts.now) }
{
    for (i, extract) in extracts.iter().enumerate() {
        if is_among(&extracts[..i], &extract.feed) {
            return Some(&extract.feed);
        }
    }
    None
}

fn feed_twice(alloc: Global, given: &WindowIn) -> Result<Option<Rule>, Memory>
    ensures { IfOk result (λ rule. rule ≡ spec.feed_twice given.now) }
{
    let Some(feed) = repeated(given.extracts.items()) else {
        return Ok(None);
    };
    let feed = Text::of(alloc, feed.bytes())?;
    Ok(Some(Rule::FeedTwice { feed }))
}

/// The first rule, W1 to W3, that the extracts break as they are given: there is none, or one is for a feed
/// that isn't in the mapping, or two are for one feed. No byte of an extract is looked at.
pub fn given_rule(
    alloc: Global,
    catalog: &Catalog,
    given: &WindowIn,
) -> Result<Option<Rule>, Memory>
    ensures { IfOk result (λ rule. rule ≡ first_of (spec.no_extracts given.now ∷ spec.unknown_feed catalog.now given.now ∷ spec.feed_twice given.now ∷ [])) }
{
    if given.extracts.items().is_empty() {
        return Ok(Some(Rule::NoExtracts));
    }
    if let Some(rule) = unknown_feed(alloc, catalog, given)? {
        return Ok(Some(rule));
    }
    feed_twice(alloc, given)
}
