//! The checks of links.

ghost use Rattle.std.specs.Prelude.{◌≡◌, IfOk, find, length, nat_lt, option_map};
ghost use Rattle.dv_catalog.specs.Checks as spec;

use dv_catalog::{LinkOutline, MapError, Outline};
use dv_text::{Duplicate, Memory};

fn first_without_key(links: &[LinkOutline]) -> Option<&LinkOutline>
    ensures { option_map (λ link. link.now) result ≡ find (λ link. nat_lt (length link.hubs) 2) links.now }
{
    links.iter().find(|link| link.hubs.items().len() < 2)
}

/// A link names fewer than two hubs.
pub(crate) fn no_key(outline: &Outline) -> Result<Option<MapError>, Memory>
    ensures { IfOk result (λ fault. fault ≡ spec.no_key outline.now) }
{
    match first_without_key(outline.links.items()) {
        Some(link) => Ok(Some(MapError::NoKey {
            name: link.name.copy()?,
        })),
        None => Ok(None),
    }
}
