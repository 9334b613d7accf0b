// The names of a header, and the rules that it may break.
ghost use Rattle.std.specs.Prelude.{◌≡◌, IfOk, find, flat_map, not, option_copied};
ghost use Rattle.std.specs.List.{list_any};
ghost use Rattle.csv.specs.Records.{fields_of};
ghost use Rattle.dv_catalog.specs.Headers as spec;
ghost use Rattle.dv_catalog.specs.Lookups.{is_among, text_twice};

use crate::fields::{are_texts, field_in};
use csv::ByteRecord;
use dv_catalog::{FeedDef, Rule};
use dv_text::{Duplicate, List, Memory, Text, field};
use std::alloc::Global;
use std::collections::BTreeSet;

// The names of a header.
pub(crate) fn header_names(alloc: Global, header: &ByteRecord) -> Result<List<Text>, Memory>
    ensures { IfOk result (λ names. names ≡ spec.header_names (fields_of header.now)) }
{
    let mut names = List::new(alloc);
    for place in 0..header.len() {
        let name = field(alloc, field_in(header, place))?;
        names.push(name)?;
    }
    Ok(names)
}

fn header_not_utf8(feed: &FeedDef, header: &ByteRecord) -> Result<Option<Rule>, Memory>
    ensures { IfOk result (λ rule. rule ≡ spec.header_not_utf8 feed.now (fields_of header.now)) }
{
    if are_texts(header) {
        return Ok(None);
    }
    let feed = feed.name.copy()?;
    Ok(Some(Rule::HeaderNotUtf8 { feed }))
}

// The first name that stands earlier.
fn first_twice(alloc: Global, names: &[Text]) -> Result<Option<Text>, Memory>
    ensures { IfOk result (λ found. found ≡ text_twice names.now) }
{
    let mut earlier = BTreeSet::new(alloc);
    for name in names {
        if !earlier.insert(name.copy()?)? {
            return Ok(Some(name.copy()?));
        }
    }
    Ok(None)
}

fn column_twice(alloc: Global, feed: &FeedDef, names: &[Text]) -> Result<Option<Rule>, Memory>
    ensures { IfOk result (λ rule. rule ≡ spec.column_twice feed.now names.now) }
{
    let Some(name) = first_twice(alloc, names)? else {
        return Ok(None);
    };
    let feed = feed.name.copy()?;
    Ok(Some(Rule::ColumnTwice { feed, name }))
}

// Whether some columns have a name.
fn are_columns(keys: &[List<Text>], name: &Text) -> bool
    ensures { result ≡ list_any (λ columns. is_among columns name.now) keys.now }
{
    keys.iter().any(|columns| columns.items().contains(name))
}

#[tactic(auto, using(crate::proofs::ColumnFacts::among_known))]
fn is_known(feed: &FeedDef, name: &Text) -> bool
    ensures { result ≡ is_among (spec.known_columns feed.now) name.now }
{
    are_columns(feed.keys.items(), name)
        || feed.sub.items().contains(name)
        || feed.attrs.items().contains(name)
        || feed.ignore.items().contains(name)
}

fn first_unmapped<'a>(feed: &FeedDef, names: &'a [Text]) -> Option<&'a Text>
    ensures { option_copied result ≡ find (λ name. not (is_among (spec.known_columns feed.now) name)) names.entry.now }
{
    names.iter().find(|name| !is_known(feed, name))
}

fn unmapped_column(feed: &FeedDef, names: &[Text]) -> Result<Option<Rule>, Memory>
    ensures { IfOk result (λ rule. rule ≡ spec.unmapped_column feed.now names.now) }
{
    let Some(name) = first_unmapped(feed, names) else {
        return Ok(None);
    };
    let name = name.copy()?;
    let feed = feed.name.copy()?;
    Ok(Some(Rule::UnmappedColumn { feed, name }))
}

// The first of some columns that no name is.
fn first_missing<'a>(names: &[Text], columns: &'a [Text]) -> Option<&'a Text>
    ensures { option_copied result ≡ find (λ column. not (is_among names.now column)) columns.entry.now }
{
    columns.iter().find(|column| !names.contains(column))
}

fn first_missing_key<'a>(names: &[Text], keys: &'a [List<Text>]) -> Option<&'a Text>
    ensures { option_copied result ≡ find (λ column. not (is_among names.now column)) (flat_map (λ columns. columns) keys.entry.now) }
{
    for columns in keys {
        match first_missing(names, columns.items()) {
            Some(column) => return Some(column),
            None => {}
        }
    }
    None
}

#[tactic(auto, using(crate::proofs::ColumnFacts::find_mapped))]
fn first_missing_column<'a>(feed: &'a FeedDef, names: &[Text]) -> Option<&'a Text>
    ensures { option_copied result ≡ find (λ column. not (is_among names.now column)) (spec.mapped_columns feed.entry.now) }
{
    if let Some(column) = first_missing_key(names, feed.keys.items()) {
        return Some(column);
    }
    if let Some(column) = first_missing(names, feed.sub.items()) {
        return Some(column);
    }
    first_missing(names, feed.attrs.items())
}

fn missing_column(feed: &FeedDef, names: &[Text]) -> Result<Option<Rule>, Memory>
    ensures { IfOk result (λ rule. rule ≡ spec.missing_column feed.now names.now) }
{
    let Some(column) = first_missing_column(feed, names) else {
        return Ok(None);
    };
    let name = column.copy()?;
    let feed = feed.name.copy()?;
    Ok(Some(Rule::MissingColumn { feed, name }))
}

// The first rule that a header breaks.
pub(crate) fn header_rule(
    alloc: Global,
    feed: &FeedDef,
    header: &ByteRecord,
    names: &[Text],
) -> Result<Option<Rule>, Memory>
    requires { names.now ≡ spec.header_names (fields_of header.now) }
    ensures { IfOk result (λ rule. rule ≡ spec.header_rule feed.now (fields_of header.now)) }
{
    if let Some(rule) = header_not_utf8(feed, header)? {
        return Ok(Some(rule));
    }
    if let Some(rule) = column_twice(alloc, feed, names)? {
        return Ok(Some(rule));
    }
    if let Some(rule) = unmapped_column(feed, names)? {
        return Ok(Some(rule));
    }
    missing_column(feed, names)
}
