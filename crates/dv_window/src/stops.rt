ghost use Rattle.std.specs.Prelude.{◌≡◌};
ghost use Rattle.dv_window.specs.Stopping as spec;

use dv_catalog::Rule;
use dv_records::{KeeperError, LoadAnswer, ResumeAnswer};
use dv_restore::StoreFault;
use dv_stage::StageFault;
use dv_text::Memory;

/// Why a window is not loaded: it repeats a sealed one, or breaks a rule; or want of memory.
#[derive(Debug, Drop)]
pub(crate) enum Stop {
    Repeated,
    Refused(Rule),
    Memory,
}

impl From<Memory> for Stop {
    ghost use Rattle.std.specs.Prelude.{◌≡◌};
    ghost use Rattle.dv_window.specs.declared.stops.Stop.TheVariants as variants;

    ghost from_gives = { λ _ e. e ≡ variants.Memory };

    fn from(_error: Memory) -> Stop {
        Stop::Memory
    }
}

impl From<StageFault> for Stop {
    ghost use Rattle.std.specs.Prelude.{◌≡◌};
    ghost use Rattle.dv_window.specs.Stopping.{stop_of_fault};

    ghost from_gives = { λ fault e. e ≡ stop_of_fault fault };

    fn from(fault: StageFault) -> Stop {
        match fault {
            StageFault::Broken(rule) => Stop::Refused(rule),
            StageFault::Memory => Stop::Memory,
        }
    }
}

impl From<Stop> for LoadAnswer {
    ghost use Rattle.std.specs.Prelude.{◌≡◌};
    ghost use Rattle.dv_window.specs.Stopping.{answer_of};

    ghost from_gives = { λ stop e. e ≡ answer_of stop };

    fn from(stop: Stop) -> LoadAnswer {
        match stop {
            Stop::Repeated => LoadAnswer::Repeated,
            Stop::Refused(rule) => LoadAnswer::Refused(rule),
            Stop::Memory => LoadAnswer::Memory,
        }
    }
}

/// The answer to a window that was taken, or broken off.
pub(crate) fn load_answer(taken: Result<u64, KeeperError>) -> LoadAnswer
    ensures { result ≡ spec.load_answer taken }
{
    match taken {
        Ok(rows) => LoadAnswer::Loaded { rows },
        Err(KeeperError::Failed) => LoadAnswer::KeeperFault,
        Err(KeeperError::Memory) => LoadAnswer::Memory,
    }
}

/// The answer to the completion of the open window, which was taken, or broken off.
pub(crate) fn resume_answer(taken: Result<u64, KeeperError>) -> ResumeAnswer
    ensures { result ≡ spec.resume_answer taken }
{
    match taken {
        Ok(rows) => ResumeAnswer::Loaded { rows },
        Err(KeeperError::Failed) => ResumeAnswer::KeeperFault,
        Err(KeeperError::Memory) => ResumeAnswer::Memory,
    }
}

/// What a load answers where a stale office could not be refreshed.
pub(crate) fn unrefreshed(fault: StoreFault) -> LoadAnswer
    ensures { result ≡ spec.unrefreshed fault }
{
    match fault {
        StoreFault::Damaged(damage) => LoadAnswer::Damaged(damage),
        StoreFault::KeeperFault => LoadAnswer::KeeperFault,
        StoreFault::Memory => LoadAnswer::Memory,
    }
}

/// What the completion of the open window answers where a stale office could not be refreshed.
pub(crate) fn unresumed(fault: StoreFault) -> ResumeAnswer
    ensures { result ≡ spec.unresumed fault }
{
    match fault {
        StoreFault::Damaged(damage) => ResumeAnswer::Damaged(damage),
        StoreFault::KeeperFault => ResumeAnswer::KeeperFault,
        StoreFault::Memory => ResumeAnswer::Memory,
    }
}
