ghost use Rattle.std.specs.Prelude.{◌≡◌, ◌<◌};
ghost use Rattle.dv_crew.specs.Orders.{counterpart};

/// The order in which tasks are begun.
#[derive(Clone, Copy, Debug, PartialEq, Eq)]
pub enum Order {
    Declared,
    Reverse,
}

impl Order {
    // The task for which a drawn number stands. Given a task, the number that stands for it.
    pub(crate) fn counterpart(self, tasks: u32, number: u32) -> u32
        requires { number < tasks }
        ensures { result ≡ counterpart self tasks number }
    {
        match self {
            Order::Declared => number,
            Order::Reverse => tasks - 1 - number,
        }
    }
}
