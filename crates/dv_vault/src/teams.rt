// Who does the tasks of a window.
ghost use Rattle.std.specs.Prelude.{◌≤◌};

use dv_crew::Order;

/// 1 to 64 workers, the order in which they begin the tasks of a window, and the gate that they pass before and after
/// each.
#[derive(Drop)]
pub(crate) struct Team<'g, G> {
    pub(crate) workers: u32,
    pub(crate) order: Order,
    pub(crate) gate: &'g G,
    ghost some: { 1 ≤ workers },
    ghost most: { workers ≤ 64 },
}
