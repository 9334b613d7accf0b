// The limits of the files of a mapping and of a window.

/// The most bytes of a mapping's file.
pub const MOST_MAPPING_BYTES: usize = 1_048_576;

/// The most bytes of a manifest.
pub const MOST_MANIFEST_BYTES: usize = 65_536;

/// The most bytes of an extract.
pub const MOST_EXTRACT_BYTES: usize = 33_554_432;

/// The most bytes of the extracts of a window together.
pub const MOST_WINDOW_BYTES: usize = 67_108_864;
