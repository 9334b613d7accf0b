ghost use Rattle.std.specs.Prelude.{◌≡◌};

use dv_catalog::Rule;
use dv_text::Memory;

/// Why an extract isn't staged: the first rule that it breaks, or want of memory.
#[derive(Debug, PartialEq, Eq, Drop)]
pub enum StageFault {
    Broken(Rule),
    Memory,
}

impl From<Memory> for StageFault {
    ghost use Rattle.dv_stage.specs.declared.faults.StageFault.TheVariants as fault;

    ghost from_gives = { λ _ e. e ≡ fault.Memory };

    fn from(_memory: Memory) -> StageFault {
        StageFault::Memory
    }
}
