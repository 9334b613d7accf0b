// The lines of the commands on what is kept, where they did what was asked.

pub(crate) const INIT_STORED: &[u8] = b"init: Stored\n";

pub(crate) const INIT_KEPT: &[u8] = b"init: Kept\n";

pub(crate) const RESUME_LOADED: &[u8] = b"resume: Loaded ";

pub(crate) const SNAPSHOT_STORED: &[u8] = b"snapshot: Stored ";

pub(crate) const SNAPSHOT_REPEATED: &[u8] = b"snapshot: Repeated\n";
