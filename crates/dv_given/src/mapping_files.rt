// The mapping's file.
ghost use Rattle.std.specs.Prelude.{◌≡◌, Ok, IfOk};
ghost use Rattle.dv_catalog.specs.MappingFiles.{read_mapping};
ghost use Rattle.dv_outside.specs.Seen.{seen};
ghost use Rattle.dv_given.specs.Endings.{IsMappingEnd};
ghost use Rattle.dv_given.specs.FolderReads.{ReadsMapping};

use crate::endings::Ending;
use crate::lines::MAPPING_NAME;
use crate::reads::read_named;
use dv_catalog::{Catalog, MOST_MAPPING_BYTES, MapError};
use dv_mapfile::read_catalog;
use dv_outside::Folder;
use dv_text::{List, Text};
use std::alloc::Global;

// The end where a mapping is refused, or could not be read for want of memory.
fn end_mapping(e: MapError) -> Ending
    ensures { IsMappingEnd e result }
{
    if e == MapError::Memory {
        return Ending::Memory;
    }
    Ending::BadMapping(e)
}

/// The mapping's file: its bytes, and the mapping that they are read as.
#[derive(Drop)]
pub struct MappingFile {
    pub bytes: List<u8>,
    pub catalog: Catalog,
}

/// Reads the mapping's file.
pub fn read_mapping_file<F: Folder>(alloc: Global, folder: &mut F) -> Result<MappingFile, Ending>
    ensures file { ReadsMapping (seen F.files F.faults folder.old folder.new) result }
    ensures reads { IfOk result (λ file. read_mapping file.bytes ≡ Ok file.catalog) }
{
    let name = Text::of(alloc, MAPPING_NAME)?;
    let bytes = read_named(alloc, folder, &name, MOST_MAPPING_BYTES as u64 + 1)?;
    match read_catalog(alloc, bytes.items()) {
        Ok(catalog) => Ok(MappingFile { bytes, catalog }),
        Err(e) => Err(end_mapping(e)),
    }
}
