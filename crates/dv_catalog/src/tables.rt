/// A raw table, by the place of its hub, link or feed in declared order.
#[derive(Clone, Copy, Debug, PartialEq, Eq)]
pub enum TableId {
    Hub(u32),
    Link(u32),
    Sat(u32),
    Multi(u32),
    Status(u32),
    Effect(u32),
}
