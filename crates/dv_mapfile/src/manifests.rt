ghost use Rattle.toml.specs.View.{table_view};
ghost use Rattle.dv_mapfile.specs.Manifests as spec;
ghost use Rattle.dv_mapfile.specs.Meets.{Meets};

use crate::documents::any_document;
use crate::fields::required;
use crate::forms::Form;
use crate::shape_faults::ShapeFault;
use crate::shapes::{Entry, read_entries};
use crate::tops::tables_at;
use dv_catalog::MOST_MANIFEST_BYTES;
use dv_text::{List, Memory, Stamp, Text};
use std::alloc::Global;
use toml::{Table, Value};

/// A window's manifest: its load date, and the extracts in the manifest's order.
#[derive(Debug, Drop)]
pub struct Manifest {
    pub load: Stamp,
    pub extracts: List<ManifestExtract>,
}

/// An extract of a manifest: the feed's name, and the name of the file that holds the extract.
#[derive(Debug, Drop)]
pub struct ManifestExtract {
    pub feed: Text,
    pub file: Text,
}

// The form of a load date.
struct LoadDate;

impl Form for LoadDate {
    type Made = Stamp;

    ghost made_of = { spec.stamp };

    fn read(_alloc: Global, value: &Value) -> Result<Option<Stamp>, Memory> {
        match value.as_str() {
            Some(text) => Ok(Stamp::read(text.as_bytes())),
            None => Ok(None),
        }
    }
}

impl Entry for ManifestExtract {
    ghost entry_of = { spec.extract_of };

    fn read(alloc: Global, table: &Table) -> Result<ManifestExtract, ShapeFault> {
        let feed = required::<Text>(alloc, table, "feed")?;
        let file = required::<Text>(alloc, table, "file")?;
        Ok(ManifestExtract { feed, file })
    }
}

// What a manifest's document says.
fn declared(alloc: Global, document: &Table) -> Result<Manifest, ShapeFault>
    ensures { Meets result (spec.manifest_of (table_view document.now)) }
{
    let load = required::<LoadDate>(alloc, document, "load")?;
    let tables = tables_at(alloc, document, "extract")?;
    let extracts = read_entries(alloc, "extract", tables.as_slice())?;
    Ok(Manifest { load, extracts })
}

impl Manifest {
    /// The manifest that some bytes are. The fault is at `length` where there are more than 65,536 bytes, at
    /// `text` where they are no TOML document, at `load` where there is no load date, at `extract` where the
    /// extracts are no list of tables, and at `extract N feed` or `extract N file` where the N-th extract
    /// lacks that text.
    pub fn read(alloc: Global, bytes: &[u8]) -> Result<Manifest, ShapeFault>
        ensures { Meets result (spec.manifest_in bytes.now) }
    {
        if bytes.len() > MOST_MANIFEST_BYTES {
            return Err(ShapeFault::at(alloc, "length"));
        }
        match any_document(alloc, bytes)? {
            Some(document) => declared(alloc, &document),
            None => Err(ShapeFault::at(alloc, "text")),
        }
    }
}
