// The bodies of replies that are JSON.
ghost use Rattle.std.specs.Prelude.{◌≡◌, IfOk, codes, false, map, slice_get};
ghost use Rattle.serde_json.specs.Data.{array, no_members, object, put as with_member, string};
ghost use Rattle.serde_json.specs.View.{items_of, view};
ghost use Rattle.serde_json.specs.Written.{compact_text, has_float};
ghost use Rattle.dv_text.specs.Stamps.{stamp_text};
ghost use Rattle.dv_catalog.specs.Tables.{feed_name};
ghost use Rattle.dv_desk.specs.Bodies as spec;

use dv_catalog::Catalog;
use dv_text::{Memory, Stamp, Text, WindowHead};
use serde_json::{Map, Value, json, put};
use std::alloc::Global;

// The text of a value.
fn text_of(alloc: Global, value: Value) -> Result<Text, Memory>
    requires { has_float (view value) ≡ false }
    ensures { IfOk result (λ text. text ≡ compact_text (view value)) }
{
    let text = value.to_string(alloc)?;
    Text::from_vec(text.into_bytes())
}

/// The name of an answer.
pub(crate) fn answer_body(alloc: Global, name: &str) -> Result<Text, Memory>
    ensures { IfOk result (λ body. body ≡ spec.answer_body name.now) }
{
    let value = json!(in alloc; {"answer": name})?;
    text_of(alloc, value)
}

// An object of two members.
fn object_of(
    alloc: Global,
    name: &str,
    first: Value,
    other: &str,
    second: Value,
) -> Result<Value, Memory>
    ensures { IfOk result (λ value. view value ≡ object (with_member other.now (view second) (with_member name.now (view first) no_members))) }
{
    let mut members = Map::new(alloc);
    put(&mut members, alloc, name, first)?;
    put(&mut members, alloc, other, second)?;
    Ok(Value::Object(members))
}

// The name of an answer and what it tells more, as a value.
fn told_value(alloc: Global, answer: &str, name: &str, more: Value) -> Result<Value, Memory>
    ensures { IfOk result (λ value. view value ≡ object (with_member name.now (view more) (with_member (codes "answer") (string answer.now) no_members))) }
{
    let answer = Value::String(String::from_str(alloc, answer)?);
    object_of(alloc, "answer", answer, name, more)
}

/// The name of an answer, and a text.
pub(crate) fn text_body(alloc: Global, name: &str, text: &[u8]) -> Result<Text, Memory>
    ensures { IfOk result (λ body. body ≡ spec.text_body name.now text.now) }
{
    let text = String::from_utf8_lossy(alloc, text)?;
    let value = told_value(alloc, name, "text", Value::String(text))?;
    text_of(alloc, value)
}

/// A window that was loaded, with the number of its rows.
pub(crate) fn loaded_body(alloc: Global, rows: u64) -> Result<Text, Memory>
    ensures { IfOk result (λ body. body ≡ spec.loaded_body rows) }
{
    let value = told_value(alloc, "Loaded", "rows", Value::from(rows))?;
    text_of(alloc, value)
}

// The name of the feed at a place; without bytes where there is no such feed.
fn name_at(catalog: &Catalog, feed: u32) -> &[u8]
    ensures { result.now ≡ feed_name (slice_get catalog.now.feeds feed) }
{
    if feed < catalog.feed_count() {
        catalog.feed(feed).name.bytes()
    } else {
        b""
    }
}

// The name of a feed, as a value.
fn feed_value(alloc: Global, catalog: &Catalog, feed: u32) -> Result<Value, Memory>
    ensures { IfOk result (λ value. view value ≡ spec.feed_data catalog.now feed) }
{
    let name = String::from_utf8_lossy(alloc, name_at(catalog, feed))?;
    Ok(Value::String(name))
}

// The names of feeds, as a value.
fn feeds_value(alloc: Global, catalog: &Catalog, feeds: &[u32]) -> Result<Value, Memory>
    ensures { IfOk result (λ value. view value ≡ array (items_of (map (spec.feed_data catalog.now) feeds.now))) }
{
    let mut names = Vec::with_capacity(alloc, feeds.len())?;
    for feed in feeds {
        names.push(feed_value(alloc, catalog, *feed)?)?;
    }
    Ok(Value::Array(names))
}

// A load date, as a value.
fn load_value(alloc: Global, load: Stamp) -> Result<Value, Memory>
    ensures { IfOk result (λ value. view value ≡ string (stamp_text load)) }
{
    let text = String::from_utf8_lossy(alloc, &load.print())?;
    Ok(Value::String(text))
}

// A window, as a value.
fn head_value(alloc: Global, catalog: &Catalog, head: &WindowHead) -> Result<Value, Memory>
    ensures { IfOk result (λ value. view value ≡ spec.head_data catalog.now head.now) }
{
    let feeds = feeds_value(alloc, catalog, head.feeds.items())?;
    let load = load_value(alloc, head.load)?;
    object_of(alloc, "feeds", feeds, "load", load)
}

// The sealed windows, as a value.
fn sealed_value(alloc: Global, catalog: &Catalog, sealed: &[WindowHead]) -> Result<Value, Memory>
    ensures { IfOk result (λ value. view value ≡ array (items_of (map (spec.head_data catalog.now) sealed.now))) }
{
    let mut heads = Vec::with_capacity(alloc, sealed.len())?;
    for head in sealed {
        heads.push(head_value(alloc, catalog, head)?)?;
    }
    Ok(Value::Array(heads))
}

// The load date of the open window, or null.
fn begun_value(alloc: Global, begun: Option<Stamp>) -> Result<Value, Memory>
    ensures { IfOk result (λ value. view value ≡ spec.begun_data begun) }
{
    match begun {
        Some(load) => load_value(alloc, load),
        None => Ok(Value::Null),
    }
}

// The windows, as a value.
fn heads_value(
    alloc: Global,
    catalog: &Catalog,
    sealed: &[WindowHead],
    begun: Option<Stamp>,
) -> Result<Value, Memory>
    ensures { IfOk result (λ value. view value ≡ spec.heads_data catalog.now sealed.now begun) }
{
    let begun = begun_value(alloc, begun)?;
    let windows = sealed_value(alloc, catalog, sealed)?;
    object_of(alloc, "open", begun, "windows", windows)
}

/// The windows: the load date of the open one, and the sealed ones in order.
pub(crate) fn heads_body(
    alloc: Global,
    catalog: &Catalog,
    sealed: &[WindowHead],
    begun: Option<Stamp>,
) -> Result<Text, Memory>
    ensures { IfOk result (λ body. body ≡ spec.heads_body catalog.now sealed.now begun) }
{
    let value = heads_value(alloc, catalog, sealed, begun)?;
    text_of(alloc, value)
}
