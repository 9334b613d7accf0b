ghost use Rattle.std.specs.Prelude.{◌≡◌};

use dv_records::{Damage, KeeperError};
use dv_text::Memory;

/// Why the store of a keeper could not be read: a row breaks a rule of form, the first that does; a call of the keeper
/// failed; or want of memory.
#[derive(Debug, PartialEq, Eq, Drop)]
pub enum StoreFault {
    Damaged(Damage),
    KeeperFault,
    Memory,
}

impl From<Memory> for StoreFault {
    ghost use Rattle.dv_restore.specs.declared.faults.StoreFault.TheVariants as variants;

    ghost from_gives = { λ _ e. e ≡ variants.Memory };

    fn from(_memory: Memory) -> StoreFault {
        StoreFault::Memory
    }
}

impl From<KeeperError> for StoreFault {
    ghost use Rattle.dv_restore.specs.Faults.{fault_of};

    ghost from_gives = { λ error e. e ≡ fault_of error };

    fn from(error: KeeperError) -> StoreFault {
        match error {
            KeeperError::Failed => StoreFault::KeeperFault,
            KeeperError::Memory => StoreFault::Memory,
        }
    }
}

/// Why an office could not start.
#[derive(Debug, PartialEq, Eq, Drop)]
pub enum StartFault {
    /// No mapping is stored.
    NoMapping,
    /// What the keeper has could not be read.
    Unread(StoreFault),
}

impl From<StoreFault> for StartFault {
    ghost use Rattle.dv_restore.specs.declared.faults.StartFault.TheVariants as variants;

    ghost from_gives = { λ fault e. e ≡ variants.Unread fault };

    fn from(fault: StoreFault) -> StartFault {
        StartFault::Unread(fault)
    }
}
