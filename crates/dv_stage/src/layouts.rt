// Where the columns of a feed stand in a header.
ghost use Rattle.std.specs.Prelude.{◌≡◌, IfOk, map};
ghost use Rattle.dv_catalog.specs.Records as records;
ghost use Rattle.dv_stage.specs.Layouts as spec;

use dv_catalog::FeedDef;
use dv_text::{List, Memory, Text};
use std::alloc::{AllocError, Global};

// The names of a header, for a feed, and where the feed's columns stand among them.
#[derive(Drop)]
pub(crate) struct Header<'a> {
    pub(crate) feed: &'a FeedDef,
    pub(crate) names: List<Text>,
    pub(crate) layout: Layout,
}

// The places of the columns of each key, of the sub and of the attributes, in mapping order.
#[derive(Debug, Drop)]
pub(crate) struct Layout {
    pub(crate) keys: List<List<usize>>,
    pub(crate) sub: List<usize>,
    pub(crate) attrs: List<usize>,
}

fn place_of(names: &[Text], column: &Text) -> Option<usize>
    ensures { result ≡ records.place_of names.now column.now }
{
    names.iter().position(|name| *name == *column)
}

fn found_places(alloc: Global, names: &[Text], columns: &[Text]) -> Result<Vec<usize>, AllocError>
    ensures { IfOk result (λ places. places.items ≡ spec.places_of names.now columns.now) }
{
    columns
        .iter()
        .filter_map(|column| place_of(names, column))
        .collect(alloc)
}

fn places_of(alloc: Global, names: &[Text], columns: &[Text]) -> Result<List<usize>, Memory>
    ensures { IfOk result (λ places. places ≡ spec.places_of names.now columns.now) }
{
    let places = found_places(alloc, names, columns)?;
    Ok(List::from_vec(places))
}

fn key_places(
    alloc: Global,
    names: &[Text],
    keys: &[List<Text>],
) -> Result<List<List<usize>>, Memory>
    ensures { IfOk result (λ places. places ≡ map (spec.places_of names.now) keys.now) }
{
    let mut places = List::new(alloc);
    for columns in keys {
        places.push(places_of(alloc, names, columns.items())?)?;
    }
    Ok(places)
}

// The layout of a header with these names.
pub(crate) fn layout_of(alloc: Global, feed: &FeedDef, names: &[Text]) -> Result<Layout, Memory>
    ensures { IfOk result (spec.IsLayoutOf feed.now names.now) }
{
    let keys = key_places(alloc, names, feed.keys.items())?;
    let sub = places_of(alloc, names, feed.sub.items())?;
    let attrs = places_of(alloc, names, feed.attrs.items())?;
    Ok(Layout { keys, sub, attrs })
}
