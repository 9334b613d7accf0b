ghost use Rattle.std.specs.Prelude.{◌≡◌};
ghost use Rattle.dv_sqlite.specs.Answers.{refusal};
ghost use Rattle.dv_sqlite.specs.declared.refusals.Refusal.TheVariants as variants;

use dv_text::Memory;
use sqlite::{Error, ErrorCode};
use std::alloc::AllocError;

/// Why something was not done: for want of memory, or for any other reason.
#[derive(Clone, Copy)]
pub(crate) enum Refusal {
    Fault,
    Memory,
}

/// What was done, or why it was not.
pub(crate) type Result<T> = std::result::Result<T, Refusal>;

impl From<Error> for Refusal {
    ghost from_gives = { λ e r. r ≡ refusal e };

    fn from(error: Error) -> Refusal {
        match error {
            Error::SqliteFailure(ErrorCode::OutOfMemory) => Refusal::Memory,
            _ => Refusal::Fault,
        }
    }
}

impl From<Memory> for Refusal {
    ghost from_gives = { λ _ r. r ≡ variants.Memory };

    fn from(_error: Memory) -> Refusal {
        Refusal::Memory
    }
}

impl From<AllocError> for Refusal {
    ghost from_gives = { λ _ r. r ≡ variants.Memory };

    fn from(_error: AllocError) -> Refusal {
        Refusal::Memory
    }
}
