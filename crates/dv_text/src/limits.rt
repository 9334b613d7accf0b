// The limit of texts.

/// The most bytes of a field of a record, and so of a part of a business key and of an attribute.
pub const MOST_FIELD_BYTES: usize = 4_096;
