ghost use Rattle.std.specs.Prelude.{◌≡◌, ℕ, Option, Some, IfOk, IfSome, OnErr};
ghost use Rattle.dv_text.specs.Causes.{HasCause};
ghost use Rattle.dv_outside.specs.Lines.{Lines, GivesNext, MayTakeBack, with_back};

use crate::folders::Failed;
use crate::links::Link;

/// Where connections come from, and are given back to.
pub trait Doors {
    type Line: Link;

    /// The connections that are to come, that were given, and that were taken back, where the doors tell
    /// them.
    ghost lines: { Self → Option (Lines Self.Line) };

    /// The port that was named last.
    ghost named: { Self → Option ℕ };

    /// How often the doors have failed.
    ghost faults: { Self → ℕ };

    /// Names the port. Takes no memory.
    fn listen(&mut self, port: u16)
        ensures port { named self.new ≡ Some port }
        ensures lines { lines self.new ≡ lines self.old }
        ensures faults { faults self.new ≡ faults self.old };

    /// The next connection, or none exactly where none is left. `Failed` only where the count of faults
    /// rose, and no connection was given then.
    fn next(&mut self) -> Result<Option<Self::Line>, Failed>
        ensures ok { IfOk result (λ line. GivesNext (lines self.old) (lines self.new) line) }
        ensures owed { IfOk result (λ line. IfSome line (λ _. MayTakeBack (lines self.new))) }
        ensures err { OnErr result (lines self.new ≡ lines self.old) }
        ensures port { named self.new ≡ named self.old }
        ensures cause { HasCause (faults self.old) (faults self.new) result };

    /// Takes back a connection that `next` gave. Takes no memory.
    fn done(&mut self, line: Self::Line)
        requires { MayTakeBack (lines self.old) }
        ensures lines { lines self.new ≡ with_back (lines self.old) line }
        ensures port { named self.new ≡ named self.old }
        ensures faults { faults self.new ≡ faults self.old };
}
