ghost use Rattle.std.specs.Prelude.{◌≡◌, ◌≢◌, IfErr, IfOk, Ok, Err};
ghost use Rattle.toml.specs.View.{table_view};
ghost use Rattle.dv_mapfile.specs.Meets.{Meets};
ghost use Rattle.dv_catalog.specs.Shapes as shape;

use crate::documents::document;
use crate::fields::no_others;
use crate::shape_faults::ShapeFault;
use crate::shapes::read_entries;
use crate::tops::tables_at;
use dv_catalog::{MapError, Outline};
use dv_text::Memory;
use std::alloc::Global;
use toml::Table;

// What a document declares.
fn declared(alloc: Global, document: &Table) -> Result<Outline, ShapeFault>
    ensures { Meets result (shape.outline_of (table_view document.now)) }
{
    let hubs = tables_at(alloc, document, "hub")?;
    let links = tables_at(alloc, document, "link")?;
    let feeds = tables_at(alloc, document, "feed")?;
    let paths = tables_at(alloc, document, "path")?;
    no_others(alloc, document, &["hub", "link", "feed", "path"])?;
    let hubs = read_entries(alloc, "hub", hubs.as_slice())?;
    let links = read_entries(alloc, "link", links.as_slice())?;
    let feeds = read_entries(alloc, "feed", feeds.as_slice())?;
    let paths = read_entries(alloc, "path", paths.as_slice())?;
    Ok(Outline {
        hubs,
        links,
        feeds,
        paths,
    })
}

/// What the bytes of a mapping file declare, with the names of hubs, links and feeds not looked up. The
/// errors are `Text` where the bytes are more than 1,048,576 or no TOML document, `Shape` with the place of
/// the first fault in the keys and values, and `Memory`.
pub(crate) fn read_outline(alloc: Global, bytes: &[u8]) -> Result<Outline, MapError>
    ensures ok { IfOk result (λ outline. shape.outline_in bytes.now ≡ Ok outline) }
    ensures err { IfErr result (λ e. e ≢ MapError.Memory → shape.outline_in bytes.now ≡ Err e) }
{
    let table = match document(alloc, bytes) {
        Ok(Some(table)) => table,
        Ok(None) => return Err(MapError::Text),
        Err(Memory) => return Err(MapError::Memory),
    };
    match declared(alloc, &table) {
        Ok(outline) => Ok(outline),
        Err(ShapeFault::At(place)) => Err(MapError::Shape { place }),
        Err(ShapeFault::Memory) => Err(MapError::Memory),
    }
}
