//! Mapping files to mappings.

ghost use Rattle.std.specs.Prelude.{◌≡◌, ◌≢◌, Err, IfErr, IfOk, IsTrue, Ok};
ghost use Rattle.dv_catalog.specs.MappingFiles.{read_mapping};
ghost use Rattle.dv_catalog.specs.Mappings.{is_valid};

use crate::mapping_files::read_outline;
use dv_catalog::{Catalog, MapError};
use dv_checks::catalog_of;
use std::alloc::Global;

/// The mapping of a mapping file's bytes. The errors are the first refusal by number, and of one number
/// the first place, and `Memory`, which is free.
#[tactic(auto, using(crate::proofs::ReadShapes::read_shape))]
pub fn read_catalog(alloc: Global, bytes: &[u8]) -> Result<Catalog, MapError>
    ensures ok { IfOk result (λ catalog. read_mapping bytes.now ≡ Ok catalog) }
    ensures valid { IfOk result (λ catalog. IsTrue (is_valid catalog)) }
    ensures err { IfErr result (λ e. e ≢ MapError.Memory → read_mapping bytes.now ≡ Err e) }
{
    let outline = read_outline(alloc, bytes)?;
    catalog_of(alloc, outline)
}
