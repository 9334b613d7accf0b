ghost use Rattle.std.specs.Prelude.{◌≡◌, IfOk, option_map};
ghost use Rattle.toml.specs.View.{table_view};
ghost use Rattle.dv_catalog.specs.Documents.{document_of, mapping_document};

use dv_catalog::MOST_MAPPING_BYTES;
use dv_text::Memory;
use std::alloc::Global;
use toml::Table;

/// The document of some bytes; none where `toml` refuses them.
pub(crate) fn any_document(alloc: Global, bytes: &[u8]) -> Result<Option<Table>, Memory>
    ensures { IfOk result (λ found. option_map table_view found ≡ document_of bytes.now) }
{
    match toml::table_from_slice(alloc, bytes) {
        Ok(table) => Ok(Some(table)),
        Err(error) if error.is_memory() => Err(Memory),
        Err(_) => Ok(None),
    }
}

/// The document of a mapping file's bytes; none where they are too many, or `toml` refuses them.
pub(crate) fn document(alloc: Global, bytes: &[u8]) -> Result<Option<Table>, Memory>
    ensures { IfOk result (λ found. option_map table_view found ≡ mapping_document bytes.now) }
{
    if bytes.len() > MOST_MAPPING_BYTES {
        return Ok(None);
    }
    any_document(alloc, bytes)
}
