use dv_catalog::Rule;
use dv_text::{Stamp, Text};

/// A row that a store has and can't have: its place in a table, and the number of the rule of form that it breaks.
#[derive(Debug, PartialEq, Eq, Drop)]
pub struct Damage {
    pub table: Text,
    pub row: u64,
    pub rule: u8,
}

/// What comes of a window: it is loaded, it repeats a sealed one, or it breaks a rule.
#[derive(Debug, PartialEq, Eq, Drop)]
pub enum Outcome {
    Load,
    Repeated,
    Refused(Rule),
}

/// How a load ended.
#[derive(Debug, PartialEq, Eq, Drop)]
pub enum LoadAnswer {
    Loaded { rows: u64 },
    Repeated,
    Refused(Rule),
    Damaged(Damage),
    KeeperFault,
    Memory,
}

/// How the completion of an open window ended.
#[derive(Debug, PartialEq, Eq, Drop)]
pub enum ResumeAnswer {
    Loaded { rows: u64 },
    NothingOpen,
    Damaged(Damage),
    KeeperFault,
    Memory,
}

/// How the storing of a mapping ended.
#[derive(Clone, Copy, Debug, PartialEq, Eq)]
pub enum InitAnswer {
    Stored,
    Kept,
    Differs,
    KeeperFault,
    Memory,
}

/// How the storing of a snapshot ended.
#[derive(Clone, Copy, Debug, PartialEq, Eq)]
pub enum SnapAnswer {
    Stored { rows: u64 },
    Repeated,
    Future { last: Option<Stamp> },
    TooLarge { path: u32 },
    Full { weight: u64 },
    KeeperFault,
    Memory,
}
