ghost use Rattle.std.specs.Prelude.{◌≡◌};

use dv_text::Memory;

/// A row that breaks a rule of form: its place in its table, where the first row is 1, and the number of the rule.
#[derive(Clone, Copy, Debug, PartialEq, Eq)]
pub struct Flaw {
    pub row: u64,
    pub rule: u8,
}

/// Why rows make no table: the first row that breaks a rule of form, or want of memory.
#[derive(Clone, Copy, Debug, PartialEq, Eq)]
pub enum Fault {
    Flawed(Flaw),
    Memory,
}

impl From<Memory> for Fault {
    ghost use Rattle.dv_store_rules.specs.declared.flaws.Fault.TheVariants as variants;

    ghost from_gives = { λ _ e. e ≡ variants.Memory };

    fn from(_memory: Memory) -> Fault {
        Fault::Memory
    }
}

/// A table whose rows break no rule of form, and what it weighs together with the tables that were read before it.
#[derive(Debug, Drop)]
pub struct Checked<T> {
    pub table: T,
    pub weight: u64,
}
