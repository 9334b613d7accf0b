ghost use Rattle.std.specs.Prelude.{◌≡◌, IfOk, slice_get};
ghost use Rattle.dv_bridge.specs.Paths.{name_of_path};
ghost use Rattle.dv_mart.specs.MartTexts as spec;

use crate::whats::What;
use dv_bridge::BridgeFault;
use dv_catalog::Catalog;
use dv_print::QueryRule;
use dv_text::{Memory, Text};
use std::alloc::Global;

/// Why there is no text of a mart.
#[derive(Clone, Copy, Debug, PartialEq, Eq)]
pub enum MartFault {
    /// The mart or the bridge is of a path of which some first steps give too many rows: the rule Q3.
    TooLarge,
    /// Memory ran out.
    Memory,
}

impl From<Memory> for MartFault {
    ghost use Rattle.std.specs.Prelude.{◌≡◌};
    ghost use Rattle.dv_mart.specs.declared.mart_faults.MartFault.TheVariants as variants;

    ghost from_gives = { λ _ fault. fault ≡ variants.Memory };

    fn from(_error: Memory) -> MartFault {
        MartFault::Memory
    }
}

impl From<BridgeFault> for MartFault {
    ghost use Rattle.std.specs.Prelude.{◌≡◌};
    ghost use Rattle.dv_mart.specs.PathTables.{fault_of};

    ghost from_gives = { λ error fault. fault ≡ fault_of error };

    fn from(error: BridgeFault) -> MartFault {
        match error {
            BridgeFault::TooLarge => MartFault::TooLarge,
            BridgeFault::Memory => MartFault::Memory,
        }
    }
}

// The name of the path at a place; without bytes where there is no such path.
fn name_at(catalog: &Catalog, path: u32) -> &[u8]
    ensures { result.now ≡ name_of_path (slice_get catalog.now.paths path) }
{
    if path < catalog.path_count() {
        catalog.path(path).name.bytes()
    } else {
        b""
    }
}

// The name of the path that a path's mart or bridge is of.
fn path_name<'a>(catalog: &'a Catalog, what: &What) -> &'a [u8]
    ensures { result.now ≡ spec.path_name catalog.now what.now }
{
    match what {
        What::Path(path) | What::Bridge(path) => name_at(catalog, *path),
        What::Feed(_) | What::Hub(_) | What::Period(_) | What::Table(_) | What::Pit(_) => b"",
    }
}

/// The rule that is broken where a path's mart or bridge is too large. It has the path's name: that
/// of the path `sold` prints as `Q3 TooLarge path=sold`.
pub fn too_large(alloc: Global, catalog: &Catalog, what: &What) -> Result<QueryRule, Memory>
    ensures { IfOk result (λ rule. rule ≡ QueryRule.TooLarge (spec.path_name catalog.now what.now)) }
{
    let path = Text::of(alloc, path_name(catalog, what))?;
    Ok(QueryRule::TooLarge { path })
}
