// The row of a record.
ghost use Rattle.std.specs.Prelude.{◌≡◌, IfOk, map, option_copied, slice_get};
ghost use Rattle.csv.specs.Records.{fields_of};
ghost use Rattle.dv_text.specs.Normal.{norm_field};
ghost use Rattle.dv_stage.specs.Layouts as spec;

use crate::fields::field_at;
use crate::layouts::Layout;
use csv::ByteRecord;
use dv_text::{Key, List, Memory, NRow, Text, field, key_part};
use std::alloc::Global;

// The normal forms of the fields at some places.
fn texts_at(alloc: Global, row: &ByteRecord, places: &[usize]) -> Result<List<Text>, Memory>
    ensures { IfOk result (λ texts. texts ≡ map norm_field (spec.fields_at (fields_of row.now) places.now)) }
{
    let mut texts = List::with_room(alloc, places.len())?;
    for place in places {
        if let Some(bytes) = field_at(row, *place) {
            let text = field(alloc, bytes)?;
            texts.push(text)?;
        }
    }
    Ok(texts)
}

// The key whose parts stand at some places.
fn key_at(alloc: Global, row: &ByteRecord, places: &[usize]) -> Result<Key, Memory>
    ensures { IfOk result (λ key. key ≡ spec.key_at (fields_of row.now) places.now) }
{
    let mut parts = List::with_room(alloc, places.len())?;
    for place in places {
        if let Some(bytes) = field_at(row, *place) {
            let part = key_part(alloc, bytes)?;
            parts.push(part)?;
        }
    }
    Ok(Key { parts })
}

fn refs_at(alloc: Global, row: &ByteRecord, keys: &[List<usize>]) -> Result<List<Key>, Memory>
    ensures { IfOk result (λ refs. refs ≡ map (spec.key_at (fields_of row.now)) keys.now) }
{
    let mut refs = List::with_room(alloc, keys.len())?;
    for places in keys {
        refs.push(key_at(alloc, row, places.items())?)?;
    }
    Ok(refs)
}

// The reference at a place, where there is one.
pub(crate) fn ref_at(refs: &[Key], place: u32) -> Option<&Key>
    ensures { option_copied result ≡ slice_get refs.now place }
{
    refs.get(place as usize)
}

// The row of a record whose columns stand at these places.
pub(crate) fn row_at(alloc: Global, row: &ByteRecord, layout: &Layout) -> Result<NRow, Memory>
    ensures { IfOk result (λ made. made ≡ spec.row_at layout.now (fields_of row.now)) }
{
    let refs = refs_at(alloc, row, layout.keys.items())?;
    let sub = texts_at(alloc, row, layout.sub.items())?;
    let attrs = texts_at(alloc, row, layout.attrs.items())?;
    Ok(NRow { refs, sub, attrs })
}
