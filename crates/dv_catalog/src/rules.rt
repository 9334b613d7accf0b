use dv_text::{Key, List, Stamp, Text};

/// The rule that a window breaks, in the order of refusal.
#[derive(Debug, PartialEq, Eq, Drop)]
pub enum Rule {
    /// W0: the manifest can't be read as one.
    Manifest {
        place: Text,
    },
    /// W1: no extract is given.
    NoExtracts,
    /// W2: an extract is for a feed that isn't in the mapping.
    UnknownFeed {
        name: Text,
    },
    /// W3: two extracts are for one feed.
    FeedTwice {
        feed: Text,
    },
    /// W4: the load date is not later than the last sealed one, and is no sealed one.
    Late {
        last: Stamp,
    },
    /// W5: a window of another load date is open.
    OpenOther {
        load: Stamp,
    },
    /// W6: an extract, or the extracts together, have too many bytes.
    TooLong {
        feed: Text,
    },
    /// W7: the extract has no record.
    NoHeader {
        feed: Text,
    },
    /// W8: a header field isn't UTF-8.
    HeaderNotUtf8 {
        feed: Text,
    },
    /// W9: a column stands twice in the header.
    ColumnTwice {
        feed: Text,
        name: Text,
    },
    /// W10: a column of the header is neither mapped nor ignored.
    UnmappedColumn {
        feed: Text,
        name: Text,
    },
    /// W11: a mapped column isn't in the header.
    MissingColumn {
        feed: Text,
        name: Text,
    },
    /// W12: a record has another number of fields than the header.
    Ragged {
        feed: Text,
        row_no: u32,
    },
    /// W13: a field of a record isn't UTF-8.
    NotUtf8 {
        feed: Text,
        row_no: u32,
    },
    /// W14: a field of a record is too long.
    FieldLong {
        feed: Text,
        row_no: u32,
    },
    /// W15: a business key that has to be there is missing.
    EmptyKey {
        feed: Text,
        row_no: u32,
    },
    /// W16: two records of one parent have different attributes.
    TwoRows {
        feed: Text,
        earlier: u32,
        later: u32,
    },
    /// W17: there are too many records.
    TooManyRows {
        feed: Text,
        row_no: u32,
    },
    /// W18: one driving key has two partners.
    TwoDrivers {
        feed: Text,
        driver: List<Key>,
    },
    /// W19: the load date was delivered before with other feeds or rows.
    Differs {
        load: Stamp,
    },
    /// W20: two business keys, or reference lists, have one hash key.
    Collision {
        table: Text,
        first: List<Key>,
        second: List<Key>,
    },
    /// W21: the vault would weigh too much, or has too many windows.
    VaultFull {
        weight: u64,
        windows: u32,
    },
}
