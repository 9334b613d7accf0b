// What workers carry of their own.
ghost use Rattle.std.specs.Prelude.{◌≡◌, ◌+◌, ◌-◌, ◌<◌, ◌≤◌, List as list_of, ℕ, [], ◌++◌};

/// How workers carry something of their own beside their seats at the board, as the right to write into what all share.
/// It is cut in two where workers part, and put together where they come back.
///
/// Contracts see how large a share is carried, and of which tasks the work is in it.
pub trait Carrier<S> {
    ghost share: { Self → S → ℕ };

    ghost has_done: { Self → S → list_of ℕ → Type 0 };

    /// Cuts so much of the share off for another worker, with the work of no task.
    fn split(&self, own: &mut S, part: u32) -> S
        requires part { (1 ≤ part) × (part < share self.now own.old) }
        requires some { (done : list_of ℕ) × has_done self.now own.old done }
        ensures left { share self.now own.new ≡ share self.now own.old - part }
        ensures right { share self.now result ≡ part }
        ensures kept { (done : list_of ℕ) → has_done self.now own.old done → has_done self.now own.new done }
        ensures none { has_done self.now result [] };

    /// Takes in what another worker carries, with its share and its work.
    fn join(&self, own: &mut S, other: S)
        requires some { (done : list_of ℕ) × has_done self.now own.old done }
        requires others { (done : list_of ℕ) × has_done self.now other done }
        requires few { share self.now own.old + share self.now other ≤ 64 }
        ensures share { share self.now own.new ≡ share self.now own.old + share self.now other }
        ensures both { (done more : list_of ℕ) → has_done self.now own.old done → has_done self.now other more → has_done self.now own.new (done ++ more) };
}

/// Nothing is carried but a share.
#[derive(Drop)]
pub(crate) struct Alone;

impl Carrier<u32> for Alone {
    ghost use Rattle.std.specs.Prelude.{◌≡◌};

    ghost share = { λ alone own. own };

    ghost has_done = { λ alone own done. own ≡ own };

    fn split(&self, own: &mut u32, part: u32) -> u32 {
        *own -= part;
        part
    }

    fn join(&self, own: &mut u32, other: u32) {
        *own += other;
    }
}
