// The rules that a record may break by itself.
ghost use Rattle.std.specs.Prelude.{◌≡◌, IfOk, false, slice_get};
ghost use Rattle.std.specs.List.{list_any};
ghost use Rattle.std.specs.Option.{option_map_or};
ghost use Rattle.csv.specs.Records.{fields_of};
ghost use Rattle.dv_text.specs.Keys as keys;
ghost use Rattle.dv_catalog.specs.Records as spec;
ghost use Rattle.dv_stage.specs.Checks as checks;

use crate::fields::{are_texts, has_long_field};
use crate::rows::ref_at;
use csv::ByteRecord;
use dv_catalog::{FeedDef, Rule};
use dv_text::{Duplicate, Key, Memory, NRow, Text, are_missing};

fn ragged(
    feed: &FeedDef,
    names: &[Text],
    row_no: u32,
    row: &ByteRecord,
) -> Result<Option<Rule>, Memory>
    ensures { IfOk result (λ rule. rule ≡ spec.ragged feed.now names.now row_no (fields_of row.now)) }
{
    if row.len() == names.len() {
        return Ok(None);
    }
    let feed = feed.name.copy()?;
    Ok(Some(Rule::Ragged { feed, row_no }))
}

fn not_utf8(feed: &FeedDef, row_no: u32, row: &ByteRecord) -> Result<Option<Rule>, Memory>
    ensures { IfOk result (λ rule. rule ≡ spec.not_utf8 feed.now row_no (fields_of row.now)) }
{
    if are_texts(row) {
        return Ok(None);
    }
    let feed = feed.name.copy()?;
    Ok(Some(Rule::NotUtf8 { feed, row_no }))
}

fn field_long(feed: &FeedDef, row_no: u32, row: &ByteRecord) -> Result<Option<Rule>, Memory>
    ensures { IfOk result (λ rule. rule ≡ spec.field_long feed.now row_no (fields_of row.now)) }
{
    if !has_long_field(row) {
        return Ok(None);
    }
    let feed = feed.name.copy()?;
    Ok(Some(Rule::FieldLong { feed, row_no }))
}

// The first rule that the fields of a record break.
pub(crate) fn fields_rule(
    feed: &FeedDef,
    names: &[Text],
    row_no: u32,
    row: &ByteRecord,
) -> Result<Option<Rule>, Memory>
    ensures { IfOk result (λ rule. rule ≡ checks.fields_rule feed.now names.now row_no (fields_of row.now)) }
{
    if let Some(rule) = ragged(feed, names, row_no, row)? {
        return Ok(Some(rule));
    }
    if let Some(rule) = not_utf8(feed, row_no, row)? {
        return Ok(Some(rule));
    }
    field_long(feed, row_no, row)
}

// Whether there is a key at a place, and it is missing.
fn is_missing_at(refs: &[Key], place: u32) -> bool
    ensures { result ≡ option_map_or keys.is_missing (slice_get refs.now place) false }
{
    match ref_at(refs, place) {
        Some(key) => key.is_missing(),
        None => false,
    }
}

// Whether one of the keys at these places is missing.
fn is_one_missing(refs: &[Key], places: &[u32]) -> bool
    ensures { result ≡ list_any (λ place. option_map_or keys.is_missing (slice_get refs.now place) false) places.now }
{
    places.iter().any(|place| is_missing_at(refs, *place))
}

#[tactic(auto, using(crate::proofs::RuleFacts::any_driver))]
fn is_driver_missing(feed: &FeedDef, row: &NRow) -> bool
    ensures { result ≡ list_any keys.is_missing (spec.driver_keys feed.now row.now) }
{
    is_one_missing(row.refs.items(), feed.driver.items())
}

pub(crate) fn empty_key(feed: &FeedDef, row_no: u32, row: &NRow) -> Result<Option<Rule>, Memory>
    ensures { IfOk result (λ rule. rule ≡ spec.empty_key feed.now row_no row.now) }
{
    if !are_missing(row.refs.items()) && !is_driver_missing(feed, row) {
        return Ok(None);
    }
    let feed = feed.name.copy()?;
    Ok(Some(Rule::EmptyKey { feed, row_no }))
}
