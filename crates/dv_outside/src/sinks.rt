ghost use Rattle.std.specs.Prelude.{◌≡◌, ◌<◌, ◌≤◌, List, ℕ, Option, length, take, IfOk, OnErr};
ghost use Rattle.dv_text.specs.Causes.{HasCause};
ghost use Rattle.dv_outside.specs.Bytes.{after};

use crate::folders::Failed;

/// A sink that bytes are written to.
pub trait Sink {
    /// The bytes written so far, where the sink tells them.
    ghost contents: { Self → Option (List ℕ) };

    /// How often it has failed.
    ghost faults: { Self → ℕ };

    /// Writes 1 to `piece.len()` bytes of the piece, and answers how many. `Failed` only where the count
    /// of faults rose, and nothing was written then.
    fn write(&mut self, piece: &[u8]) -> Result<usize, Failed>
        requires { 0 < length piece.now }
        ensures some { IfOk result (λ n. 0 < n) }
        ensures within { IfOk result (λ n. n ≤ length piece.now) }
        ensures ok { IfOk result (λ n. contents self.new ≡ after (contents self.old) (take n piece.now)) }
        ensures err { OnErr result (contents self.new ≡ contents self.old) }
        ensures cause { HasCause (faults self.old) (faults self.new) result };
}
