//! Why a mapping file is refused, once its entries have their form.

ghost use Rattle.std.specs.Prelude.{◌≡◌, IfOk};
ghost use Rattle.dv_catalog.specs.Checks as spec;

use crate::driver_checks::{driver_not_in_link, driver_with_sub, sub_without_attrs};
use crate::feed_checks::{column_twice, key_count};
use crate::limits::too_many;
use crate::link_checks::no_key;
use crate::name_checks::{name_form, name_twice, unknown_hub, unknown_link};
use crate::path_checks::path_broken;
use dv_catalog::{MapError, Outline};
use dv_text::Memory;
use std::alloc::Global;

/// The first fault by number, and of one number the first place in the file.
pub(crate) fn fault_of(alloc: Global, outline: &Outline) -> Result<Option<MapError>, Memory>
    ensures { IfOk result (λ fault. fault ≡ spec.fault_of outline.now) }
{
    if let Some(fault) = name_twice(outline)? {
        return Ok(Some(fault));
    }
    if let Some(fault) = unknown_hub(outline)? {
        return Ok(Some(fault));
    }
    if let Some(fault) = unknown_link(outline)? {
        return Ok(Some(fault));
    }
    if let Some(fault) = key_count(outline)? {
        return Ok(Some(fault));
    }
    if let Some(fault) = no_key(outline)? {
        return Ok(Some(fault));
    }
    if let Some(fault) = column_twice(alloc, outline)? {
        return Ok(Some(fault));
    }
    if let Some(fault) = sub_without_attrs(outline)? {
        return Ok(Some(fault));
    }
    if let Some(fault) = driver_not_in_link(outline)? {
        return Ok(Some(fault));
    }
    if let Some(fault) = driver_with_sub(outline)? {
        return Ok(Some(fault));
    }
    if let Some(fault) = path_broken(outline)? {
        return Ok(Some(fault));
    }
    if let Some(fault) = too_many(alloc, outline)? {
        return Ok(Some(fault));
    }
    name_form(outline)
}
