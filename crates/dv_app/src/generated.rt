// The mapping and the windows that `exercise` makes.
ghost use Rattle.std.specs.Prelude.{◌≡◌, ◌<◌, ◌++◌, ◌∷◌, [], IfOk, OnOk};
ghost use Rattle.std.specs.Fmt.{decimal};
ghost use Rattle.dv_app.specs.Generated as spec;

use dv_catalog::{Catalog, ExtractIn, FeedDef, HubDef, Parent, WindowIn};
use dv_text::{List, Memory, Stamp, Text};
use std::alloc::Global;

/// How many windows are made.
pub(crate) const WINDOWS: u32 = 4;

// The load date of the first window, 2024-01-01T00:00:00, and the seconds of a day.
const FIRST_LOAD: u64 = 3_913_056_000;

const DAY: u64 = 86_400;

// ---- The mapping.

// A list of one text.
fn one_text(alloc: Global, bytes: &[u8]) -> Result<List<Text>, Memory>
    ensures { IfOk result (λ made. made ≡ bytes.now ∷ []) }
{
    let mut made = List::with_room(alloc, 1)?;
    made.push(Text::of(alloc, bytes)?)?;
    Ok(made)
}

// The key columns of a feed of items.
fn item_keys(alloc: Global) -> Result<List<List<Text>>, Memory>
    ensures { IfOk result (λ made. made ≡ (spec.left_feed).keys) }
{
    let mut made = List::with_room(alloc, 1)?;
    made.push(one_text(alloc, b"K")?)?;
    Ok(made)
}

// A feed of items with one attribute.
fn generated_feed(alloc: Global, name: &[u8], attr: &[u8]) -> Result<FeedDef, Memory>
    ensures { IfOk result (λ feed. feed ≡ spec.generated_feed name.now attr.now) }
{
    let name = Text::of(alloc, name)?;
    let source = Text::of(alloc, b"gen")?;
    let keys = item_keys(alloc)?;
    let attrs = one_text(alloc, attr)?;
    Ok(FeedDef {
        name,
        source,
        parent: Parent::Hub(0),
        keys,
        sub: List::new(alloc),
        attrs,
        ignore: List::new(alloc),
        driver: List::new(alloc),
    })
}

// The hub of items.
fn generated_hubs(alloc: Global) -> Result<List<HubDef>, Memory>
    ensures { IfOk result (λ hubs. hubs ≡ (spec.generated_mapping).hubs) }
{
    let name = Text::of(alloc, b"item")?;
    let mut hubs = List::with_room(alloc, 1)?;
    hubs.push(HubDef { name, parts: 1 })?;
    Ok(hubs)
}

// The two feeds of items.
fn generated_feeds(alloc: Global) -> Result<List<FeedDef>, Memory>
    ensures { IfOk result (λ feeds. feeds ≡ (spec.generated_mapping).feeds) }
{
    let mut feeds = List::with_room(alloc, 2)?;
    feeds.push(generated_feed(alloc, b"left", b"A")?)?;
    feeds.push(generated_feed(alloc, b"right", b"B")?)?;
    Ok(feeds)
}

/// The mapping: a hub of items, and two feeds of it.
pub(crate) fn generated_catalog(alloc: Global) -> Result<Catalog, Memory>
    ensures { IfOk result (λ catalog. catalog ≡ spec.generated_mapping) }
{
    let hubs = generated_hubs(alloc)?;
    let feeds = generated_feeds(alloc)?;
    Ok(Catalog::new(hubs, List::new(alloc), feeds, List::new(alloc)))
}

// ---- The windows.

// Puts the decimal text of a number at the end.
fn push_number(alloc: Global, bytes: &mut Vec<u8>, number: u64) -> Result<(), Memory>
    ensures { OnOk result (bytes.new.items ≡ bytes.old.items ++ decimal number) }
{
    let shown = number.to_string(alloc)?;
    bytes.extend_from_slice(shown.as_bytes())?;
    Ok(())
}

// Puts a record of two numbers at the end.
fn push_record(alloc: Global, bytes: &mut Vec<u8>, key: u64, attr: u64) -> Result<(), Memory>
    ensures { OnOk result (bytes.new.items ≡ bytes.old.items ++ spec.record_line key attr) }
{
    push_number(alloc, bytes, key)?;
    bytes.push(b',')?;
    push_number(alloc, bytes, attr)?;
    bytes.push(b'\n')?;
    Ok(())
}

// Puts the record that `left` has of an item in a window at the end, if there is one.
fn push_left(alloc: Global, bytes: &mut Vec<u8>, window: u32, item: u32) -> Result<(), Memory>
    ensures { OnOk result (bytes.new.items ≡ bytes.old.items ++ spec.left_line window item) }
{
    let (window, item) = (u64::from(window), u64::from(item));
    if (item + window) % 4 == 0 {
        return Ok(());
    }
    push_record(alloc, bytes, item, (item + window / 2) % 3)
}

// Puts the record that `right` has of an item at the end, if there is one.
fn push_right(alloc: Global, bytes: &mut Vec<u8>, item: u32) -> Result<(), Memory>
    ensures { OnOk result (bytes.new.items ≡ bytes.old.items ++ spec.right_line item) }
{
    let item = u64::from(item);
    if item % 2 == 0 {
        return push_record(alloc, bytes, item, item % 5);
    }
    Ok(())
}

// What `left` delivers in a window.
fn left_bytes(alloc: Global, items: u32, window: u32) -> Result<List<u8>, Memory>
    ensures { IfOk result (λ bytes. bytes ≡ spec.left_bytes items window) }
{
    let mut bytes = Vec::from_slice(alloc, b"K,A\n")?;
    for item in 0..items {
        push_left(alloc, &mut bytes, window, item)?;
    }
    Ok(List::from_vec(bytes))
}

// What `right` delivers.
fn right_bytes(alloc: Global, items: u32) -> Result<List<u8>, Memory>
    ensures { IfOk result (λ bytes. bytes ≡ spec.right_bytes items) }
{
    let mut bytes = Vec::from_slice(alloc, b"K,B\n")?;
    for item in 0..items {
        push_right(alloc, &mut bytes, item)?;
    }
    Ok(List::from_vec(bytes))
}

// The extracts of a window.
fn generated_extracts(alloc: Global, items: u32, window: u32) -> Result<List<ExtractIn>, Memory>
    ensures { IfOk result (λ extracts. extracts ≡ spec.generated_extracts items window) }
{
    let mut extracts = List::with_room(alloc, 2)?;
    let feed = Text::of(alloc, b"left")?;
    let bytes = left_bytes(alloc, items, window)?;
    extracts.push(ExtractIn { feed, bytes })?;
    if window % 2 == 0 {
        let feed = Text::of(alloc, b"right")?;
        let bytes = right_bytes(alloc, items)?;
        extracts.push(ExtractIn { feed, bytes })?;
    }
    Ok(extracts)
}

/// The load date of a window. Takes no memory.
pub(crate) fn load_date(window: u32) -> Stamp
    requires { window < 4 }
    ensures { result ≡ spec.load_date window }
{
    let seconds = FIRST_LOAD + DAY * u64::from(window);
    match Stamp::from_number(seconds as i64) {
        Some(date) => date,
        None => unreachable!(),
    }
}

/// The window with a number, from 0, of so many items.
pub(crate) fn generated_window(alloc: Global, items: u32, window: u32) -> Result<WindowIn, Memory>
    requires { window < 4 }
    ensures { IfOk result (λ given. given ≡ spec.generated_window items window) }
{
    let load = load_date(window);
    let extracts = generated_extracts(alloc, items, window)?;
    Ok(WindowIn { load, extracts })
}
