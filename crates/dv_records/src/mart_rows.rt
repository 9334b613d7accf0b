use dv_text::{Digest, Key, List, Stamp, Text};

/// What a hub mart shows of a key for one feed: whether it is present, and its attributes or blanks.
#[derive(Debug, PartialEq, Eq, Drop)]
pub struct HubCell {
    pub present: bool,
    pub attrs: List<Text>,
}

/// A row of a hub mart: a key, and a cell for each feed of the hub.
#[derive(Debug, PartialEq, Eq, Drop)]
pub struct HubMartRow {
    pub key: Key,
    pub cells: List<HubCell>,
}

/// A row of a path mart: a reference list for each feed of the path.
#[derive(Debug, PartialEq, Eq, Drop)]
pub struct PathRow {
    pub steps: List<List<Key>>,
}

/// A row of a period mart: a reference list, and from when to when it was in force.
#[derive(Debug, PartialEq, Eq, Drop)]
pub struct PeriodRow {
    pub refs: List<Key>,
    pub begin: Stamp,
    pub end: Stamp,
}

/// One run of a parent: from when to when it was in effect; open where `end` is `Stamp::OPEN`.
#[derive(Debug, PartialEq, Eq, Drop)]
pub struct Period {
    pub parent: Digest,
    pub begin: Stamp,
    pub end: Stamp,
}
