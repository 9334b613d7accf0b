// How many workers a window is worth.
ghost use Rattle.std.specs.Prelude.{◌≤◌};

use dv_catalog::{ExtractIn, WindowIn};

// Extracts that have fewer bytes together are staged sooner than a thread begins.
const SHORT_BYTES: usize = 16_384;

// Whether extracts have few bytes together.
fn are_short(extracts: &[ExtractIn]) -> bool {
    let mut bytes: usize = 0;
    for extract in extracts {
        bytes = bytes.saturating_add(extract.bytes.items().len());
    }
    bytes < SHORT_BYTES
}

/// The workers that a window is worth: one where its extracts have fewer than 16 KiB together, since
/// a thread costs more than it saves there, and else as many as are given. Takes no memory.
pub fn workers_for(given: &WindowIn, workers: u32) -> u32
    requires { (1 ≤ workers) × (workers ≤ 64) }
    ensures some { 1 ≤ result }
    ensures no_more { result ≤ workers }
{
    if are_short(given.extracts.items()) {
        1
    } else {
        workers
    }
}
