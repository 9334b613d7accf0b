use dv_text::Memory;

/// Why there are no rows of a bridge.
#[derive(Clone, Copy, Debug, PartialEq, Eq)]
pub enum BridgeFault {
    /// There are more than 1,000,000 rows: the rule Q3.
    TooLarge,
    /// Memory ran out.
    Memory,
}

impl From<Memory> for BridgeFault {
    ghost use Rattle.std.specs.Prelude.{◌≡◌};
    ghost use Rattle.dv_bridge.specs.declared.fault.BridgeFault.TheVariants as variants;

    ghost from_gives = { λ _ fault. fault ≡ variants.Memory };

    fn from(_error: Memory) -> BridgeFault {
        BridgeFault::Memory
    }
}
