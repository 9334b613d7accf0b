ghost use Rattle.std.specs.Prelude.{◌≡◌};

use dv_records::{Damage, KeeperError};
use dv_text::Memory;

/// Why there is no text of a stored table: no snapshot is stored at the date, the rule Q5; a row
/// that is stored breaks a rule of form; a call of the keeper failed; or want of memory.
#[derive(Debug, PartialEq, Eq, Drop)]
pub enum StoredFault {
    NoSnapshot,
    Damaged(Damage),
    KeeperFault,
    Memory,
}

impl From<Memory> for StoredFault {
    ghost use Rattle.std.specs.Prelude.{◌≡◌};
    ghost use Rattle.dv_window.specs.declared.stored.StoredFault.TheVariants as variants;

    ghost from_gives = { λ _ fault. fault ≡ variants.Memory };

    fn from(_error: Memory) -> StoredFault {
        StoredFault::Memory
    }
}

impl From<KeeperError> for StoredFault {
    ghost use Rattle.std.specs.Prelude.{◌≡◌};
    ghost use Rattle.dv_window.specs.StoredFaults.{fault_of};

    ghost from_gives = { λ error fault. fault ≡ fault_of error };

    fn from(error: KeeperError) -> StoredFault {
        match error {
            KeeperError::Failed => StoredFault::KeeperFault,
            KeeperError::Memory => StoredFault::Memory,
        }
    }
}
