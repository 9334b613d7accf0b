ghost use Rattle.std.specs.Prelude.{◌≡◌, ◌<◌, ◌≤◌, List, ℕ, Option, length, take, IfOk, OnErr};
ghost use Rattle.dv_text.specs.Causes.{HasCause};
ghost use Rattle.dv_outside.specs.Bytes.{after, in_front, IsZeroAtEnd};

use crate::folders::Failed;

/// A connection, which bytes are read from and written to.
pub trait Link {
    /// The bytes that are still to be read, where the link tells them.
    ghost left: { Self → Option (List ℕ) };

    /// The bytes written so far, where the link tells them.
    ghost contents: { Self → Option (List ℕ) };

    /// How often it has failed.
    ghost faults: { Self → ℕ };

    /// Reads the next 1 to `into.len()` bytes to the front of `into`, and answers how many, or 0 exactly
    /// at the end of the input. `Failed` only where the count of faults rose, and no byte was taken then.
    fn read(&mut self, into: &mut [u8]) -> Result<usize, Failed>
        requires { 0 < length into.old }
        ensures within { IfOk result (λ n. n ≤ length into.new) }
        ensures ok { IfOk result (λ n. left self.old ≡ in_front (take n into.new) (left self.new)) }
        ensures end { IfOk result (λ n. IsZeroAtEnd n (left self.old)) }
        ensures err { OnErr result (left self.new ≡ left self.old) }
        ensures kept { contents self.new ≡ contents self.old }
        ensures cause { HasCause (faults self.old) (faults self.new) result };

    /// Writes 1 to `piece.len()` bytes of the piece, and answers how many. `Failed` only where the count
    /// of faults rose, and nothing was written then.
    fn write(&mut self, piece: &[u8]) -> Result<usize, Failed>
        requires { 0 < length piece.now }
        ensures some { IfOk result (λ n. 0 < n) }
        ensures within { IfOk result (λ n. n ≤ length piece.now) }
        ensures ok { IfOk result (λ n. contents self.new ≡ after (contents self.old) (take n piece.now)) }
        ensures err { OnErr result (contents self.new ≡ contents self.old) }
        ensures kept { left self.new ≡ left self.old }
        ensures cause { HasCause (faults self.old) (faults self.new) result };
}
