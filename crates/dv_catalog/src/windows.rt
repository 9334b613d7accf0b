use dv_text::{List, Stamp, Text};

/// An extract as it is given: the feed's name, and the bytes of its CSV.
#[derive(Debug, PartialEq, Eq, Drop)]
pub struct ExtractIn {
    pub feed: Text,
    pub bytes: List<u8>,
}

/// A window as it is given: a load date, and the extracts that are delivered under it.
#[derive(Debug, PartialEq, Eq, Drop)]
pub struct WindowIn {
    pub load: Stamp,
    pub extracts: List<ExtractIn>,
}
