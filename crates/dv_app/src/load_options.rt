ghost use Rattle.std.specs.Prelude.{◌≤◌};

use dv_window::Order;

/// How windows are loaded: by 1 to 64 workers, in an order of the tasks.
#[derive(Clone, Copy)]
pub(crate) struct LoadOptions {
    pub workers: u32,
    pub order: Order,
    ghost some: { 1 ≤ workers },
    ghost most: { workers ≤ 64 },
}
