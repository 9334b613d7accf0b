// Driving keys beside the references that they stand in, in order, so that those with several partners are
// neighbours.
ghost use Rattle.std.specs.Prelude.{◌≡◌, ◌<◌, IfOk, Some, map, option_copied, slice_get};
ghost use Rattle.dv_catalog.specs.Records as records;
ghost use Rattle.dv_catalog.specs.Readings as readings;
ghost use Rattle.dv_stage.specs.Partners as spec;

use crate::rows::ref_at;
use dv_catalog::{FeedDef, Rule};
use dv_text::{Duplicate, Exact, Key, List, Memory, NRow, Prefixed, sorted_by_prefix};
use std::alloc::Global;

// The driving keys of a row, and its references.
#[derive(Debug, PartialEq, Eq, PartialOrd, Ord, Drop)]
pub(crate) struct Partner {
    driver: List<Key>,
    refs: List<Key>,
}

impl Exact for Partner {
    ghost use Rattle.dv_stage.specs.Partners.{partner_cmp-IsAntisymmetric};

    ghost tells_apart = { partner_cmp-IsAntisymmetric };
}

impl Prefixed for Partner {
    ghost use Rattle.dv_stage.specs.Partners.{partner_agrees, partner_prefix};

    ghost number = { partner_prefix };

    fn prefix(&self) -> u128 {
        self.driver.prefix()
    }

    ghost agrees = { partner_agrees };
}

fn driver_keys(alloc: Global, feed: &FeedDef, row: &NRow) -> Result<List<Key>, Memory>
    ensures { IfOk result (λ keys. keys ≡ records.driver_keys feed.now row.now) }
{
    let refs = row.refs.items();
    let mut keys = List::new(alloc);
    for place in feed.driver.items() {
        if let Some(key) = ref_at(refs, *place) {
            keys.push(key.copy()?)?;
        }
    }
    Ok(keys)
}

fn make_partner(alloc: Global, feed: &FeedDef, row: &NRow) -> Result<Partner, Memory>
    ensures { IfOk result (λ partner. partner ≡ spec.partner_of feed.now row.now) }
{
    let driver = driver_keys(alloc, feed, row)?;
    let refs = row.refs.copy()?;
    Ok(Partner { driver, refs })
}

fn all_partners(alloc: Global, feed: &FeedDef, rows: &[NRow]) -> Result<Vec<Partner>, Memory>
    ensures { IfOk result (λ partners. partners.items ≡ map (spec.partner_of feed.now) rows.now) }
{
    let mut partners = Vec::new(alloc);
    for row in rows {
        partners.push(make_partner(alloc, feed, row)?)?;
    }
    Ok(partners)
}

// The first driving keys that stand beside themselves.
#[tactic(auto, using(crate::proofs::Neighbouring::neighbour_end, crate::proofs::Neighbouring::neighbour_found, crate::proofs::Neighbouring::neighbour_passed))]
fn first_pair(partners: &[Partner]) -> Option<&List<Key>>
    ensures { option_copied result ≡ spec.first_pair partners.entry.now }
{
    for i in 1..partners.len() {
        let before = &partners[i - 1];
        let behind = &partners[i];
        if before.driver == behind.driver {
            return Some(&before.driver);
        }
    }
    None
}

// The least driving keys that rows of different references have in common.
fn shared_driver(alloc: Global, feed: &FeedDef, rows: &[NRow]) -> Result<Option<List<Key>>, Memory>
    ensures { IfOk result (λ driver. driver ≡ slice_get (readings.shared_drivers feed.now rows.now) 0) }
{
    let partners = sorted_by_prefix(all_partners(alloc, feed, rows)?)?;
    match first_pair(partners.items()) {
        Some(driver) => Ok(Some(driver.copy()?)),
        None => Ok(None),
    }
}

/// The rule W18, where the rows of a feed break it: the feed has a driver, and two rows with the
/// same driving keys have different references. It names the least such keys. Want of memory is the
/// error; the rows may stand in any order, and are sorted by their driving keys once. Where the
/// first key drives, it names the key `1` for the references `1`, `P` and `1`, `Q`; `1`, `P` and
/// `2`, `P` break nothing.
pub fn two_drivers(alloc: Global, feed: &FeedDef, rows: &[NRow]) -> Result<Option<Rule>, Memory>
    ensures { IfOk result (λ rule. rule ≡ readings.two_drivers feed.now feed.now.driver rows.now) }
{
    if feed.driver.items().is_empty() {
        return Ok(None);
    }
    let Some(driver) = shared_driver(alloc, feed, rows)? else {
        return Ok(None);
    };
    let feed = feed.name.copy()?;
    Ok(Some(Rule::TwoDrivers { feed, driver }))
}
