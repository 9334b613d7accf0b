// Why a window adds nothing to a vault.
ghost use Rattle.std.specs.Prelude.{◌≡◌};
ghost use Rattle.dv_vault.specs.Additions.{fault_at};

use dv_catalog::TableId;
use dv_records::DeltaFault;
use dv_text::{Key, List, Memory};

/// Why a window adds nothing: two different keys of a hub, or reference lists of a link, have one hash key; or
/// want of memory.
#[derive(Debug, Drop)]
pub enum AdditionFault {
    Collision {
        table: TableId,
        first: List<Key>,
        second: List<Key>,
    },
    Memory,
}

impl From<Memory> for AdditionFault {
    ghost use Rattle.std.specs.Prelude.{◌≡◌};
    ghost use Rattle.dv_vault.specs.declared.additions.AdditionFault.TheVariants as variants;

    ghost from_gives = { λ _ e. e ≡ variants.Memory };

    fn from(_error: Memory) -> AdditionFault {
        AdditionFault::Memory
    }
}

// A fault of the rows of a table.
pub(crate) fn fault_of(table: TableId, fault: DeltaFault) -> AdditionFault
    ensures { result ≡ fault_at table fault }
{
    match fault {
        DeltaFault::Collision { first, second } => AdditionFault::Collision {
            table,
            first,
            second,
        },
        DeltaFault::Memory => AdditionFault::Memory,
    }
}
