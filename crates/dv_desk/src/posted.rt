// The window that a request's body is.
ghost use Rattle.std.specs.Prelude.{◌≡◌, IfOk, codes, option_map, string_bytes};
ghost use Rattle.serde_json.specs.Find.{as_array, as_object, as_str, get_member};
ghost use Rattle.serde_json.specs.View.{items_view, members_view, view};
ghost use Rattle.dv_catalog.specs.Shapes.{placed as placed_by};
ghost use Rattle.dv_mapfile.specs.Meets.{Meets, MeetsAs};
ghost use Rattle.dv_desk.specs.Posted as spec;

use dv_catalog::{ExtractIn, WindowIn};
use dv_mapfile::{ShapeFault, placed};
use dv_text::{List, Memory, Stamp, Text};
use serde_json::{Map, Value};
use std::alloc::Global;
use std::str;

/// What a body is: a window, or JSON with a fault at a place, or no JSON.
#[derive(Drop)]
pub enum Posted {
    NotJson,
    Faulty { place: Text },
    Given(WindowIn),
}

// The member of a name.
fn member<'a>(members: &'a Map<String, Value>, name: &str) -> Option<&'a Value>
    ensures { option_map (λ value. view value.now) result ≡ get_member name.now (members_view members.now.entries) }
{
    members.get(name)
}

// The member of a name, taken out of its object.
fn take_member(members: &mut Map<String, Value>, name: &str) -> Option<Value>
    ensures { option_map view result ≡ get_member name.now (members_view members.old.entries) }
{
    members.remove(name)
}

// The text that a value is; none where it is no text.
fn into_text(value: Value) -> Option<String>
    ensures { option_map string_bytes result ≡ as_str (view value) }
{
    match value {
        Value::String(text) => Some(text),
        _ => None,
    }
}

// The items of a value; none where it is no array.
fn into_items(value: Value) -> Option<Vec<Value>>
    ensures { option_map (λ items. items_view items.items) result ≡ as_array (view value) }
{
    match value {
        Value::Array(items) => Some(items),
        _ => None,
    }
}

// The stamp that a value says.
fn stamp_in(value: &Value) -> Option<Stamp>
    ensures { result ≡ spec.stamp (view value.now) }
{
    let text = value.as_str()?;
    Stamp::read(text.as_bytes())
}

// The load date of a window.
fn load_in(alloc: Global, members: &Map<String, Value>) -> Result<Stamp, ShapeFault>
    ensures { Meets result (spec.required spec.stamp (codes "load") (members_view members.now.entries)) }
{
    let Some(value) = member(members, "load") else {
        return Err(ShapeFault::at(alloc, "load"));
    };
    match stamp_in(value) {
        Some(load) => Ok(load),
        None => Err(ShapeFault::at(alloc, "load")),
    }
}

// The feed of an extract.
fn feed_in(alloc: Global, members: &Map<String, Value>) -> Result<Text, ShapeFault>
    ensures { Meets result (spec.required as_str (codes "feed") (members_view members.now.entries)) }
{
    let Some(value) = member(members, "feed") else {
        return Err(ShapeFault::at(alloc, "feed"));
    };
    match value.as_str() {
        Some(feed) => Ok(Text::of(alloc, feed.as_bytes())?),
        None => Err(ShapeFault::at(alloc, "feed")),
    }
}

// The text of an extract, which is taken out of its object and not copied.
fn text_in(alloc: Global, members: &mut Map<String, Value>) -> Result<List<u8>, ShapeFault>
    ensures { Meets result (spec.required as_str (codes "text") (members_view members.old.entries)) }
{
    let Some(value) = take_member(members, "text") else {
        return Err(ShapeFault::at(alloc, "text"));
    };
    match into_text(value) {
        Some(text) => Ok(List::from_vec(text.into_bytes())),
        None => Err(ShapeFault::at(alloc, "text")),
    }
}

// The items of the list of extracts, taken out of the window.
fn items_in(alloc: Global, members: &mut Map<String, Value>) -> Result<Vec<Value>, ShapeFault>
    ensures { MeetsAs (λ items. items_view items.items) result (spec.required as_array (codes "extracts") (members_view members.old.entries)) }
{
    let Some(value) = take_member(members, "extracts") else {
        return Err(ShapeFault::at(alloc, "extracts"));
    };
    match into_items(value) {
        Some(items) => Ok(items),
        None => Err(ShapeFault::at(alloc, "extracts")),
    }
}

// The extract that members are.
fn extract_of(alloc: Global, members: &mut Map<String, Value>) -> Result<ExtractIn, ShapeFault>
    ensures { Meets result (spec.extract_of (members_view members.old.entries)) }
{
    let feed = feed_in(alloc, members)?;
    let bytes = text_in(alloc, members)?;
    Ok(ExtractIn { feed, bytes })
}

// The extract that an item is; one that is no object has no feed. Its text is taken out of it.
fn extract_in(alloc: Global, item: &mut Value) -> Result<ExtractIn, ShapeFault>
    ensures { Meets result (spec.extract_of (spec.members_in (view item.old))) }
{
    match item.as_object_mut() {
        Some(members) => extract_of(alloc, members),
        None => Err(ShapeFault::at(alloc, "feed")),
    }
}

// The extract that an item is, by its number.
fn extract_at(alloc: Global, number: u64, item: &mut Value) -> Result<ExtractIn, ShapeFault>
    ensures { Meets result (placed_by (codes "extract") number (spec.extract_of (spec.members_in (view item.old)))) }
{
    placed(alloc, "extract", number, extract_in(alloc, item))
}

// The extracts that items are.
fn extracts_in(alloc: Global, items: &mut [Value]) -> Result<List<ExtractIn>, ShapeFault>
    ensures { Meets result (spec.extracts_in 1 (items_view items.old)) }
{
    let mut extracts = Vec::with_capacity(alloc, items.len())?;
    let mut number = 1;
    for item in items.iter_mut() {
        extracts.push(extract_at(alloc, number, item)?)?;
        number += 1;
    }
    Ok(List::from_vec(extracts))
}

// The window that members are.
fn window_of(alloc: Global, members: &mut Map<String, Value>) -> Result<WindowIn, ShapeFault>
    ensures { Meets result (spec.window_of (members_view members.old.entries)) }
{
    let load = load_in(alloc, members)?;
    let mut items = items_in(alloc, members)?;
    let extracts = extracts_in(alloc, &mut items)?;
    Ok(WindowIn { load, extracts })
}

// The window that a value is.
fn window_in(alloc: Global, value: Value) -> Result<WindowIn, ShapeFault>
    ensures { Meets result (spec.window_or_object (as_object (view value))) }
{
    let mut value = value;
    match value.as_object_mut() {
        Some(members) => window_of(alloc, members),
        None => Err(ShapeFault::at(alloc, "object")),
    }
}

// The JSON that bytes are; none where they are none.
fn json_in(alloc: Global, bytes: &[u8]) -> Result<Option<Value>, Memory>
    ensures { IfOk result (λ value. option_map view value ≡ spec.json_of bytes.now) }
{
    let Ok(text) = str::from_utf8(bytes) else {
        return Ok(None);
    };
    match Value::from_str(alloc, text) {
        Ok(value) => Ok(Some(value)),
        Err(error) if error.is_memory() => Err(Memory),
        Err(_) => Ok(None),
    }
}

/// What a body is.
pub(crate) fn read_body(alloc: Global, body: &[u8]) -> Result<Posted, Memory>
    ensures { IfOk result (λ found. found ≡ spec.posted body.now) }
{
    let Some(value) = json_in(alloc, body)? else {
        return Ok(Posted::NotJson);
    };
    match window_in(alloc, value) {
        Ok(given) => Ok(Posted::Given(given)),
        Err(ShapeFault::At(place)) => Ok(Posted::Faulty { place }),
        Err(ShapeFault::Memory) => Err(Memory),
    }
}
