// What came of a window, and the line that says it.
ghost use Rattle.std.specs.Prelude.{◌≡◌, ◌++◌, IfOk, OnOk};
ghost use Rattle.dv_given.specs.WindowOutcomes.{outcome_of, taken_text};
ghost use Rattle.dv_given.specs.Tried.{is_refused, status_for, window_line as line_of_window};

use dv_catalog::{Rule, printed, rule_text};
use dv_outside::Status;
use dv_text::{Memory, Text};
use std::alloc::Global;

/// What came of a window: so many rows were loaded, or it repeats a sealed one, or it breaks a
/// rule.
#[derive(Drop)]
pub enum Taken {
    Loaded { rows: u64 },
    Repeated,
    Refused(Rule),
}

// Puts a line's words for what came of a window at its end.
fn push_taken(alloc: Global, line: &mut Vec<u8>, taken: &Taken) -> Result<(), Memory>
    ensures { OnOk result (line.new.items ≡ line.old.items ++ taken_text taken.now) }
{
    match taken {
        Taken::Loaded { rows } => {
            line.extend_from_slice(b": Loaded ")?;
            let rows = rows.to_string(alloc)?;
            line.extend_from_slice(rows.as_bytes())?;
        }
        Taken::Repeated => line.extend_from_slice(b": Repeated")?,
        Taken::Refused(rule) => {
            line.extend_from_slice(b": ")?;
            let rule = rule_text(alloc, rule)?;
            line.extend_from_slice(rule.bytes())?;
        }
    }
    Ok(())
}

/// The line of a window, by the manifest's name and what came of it.
pub fn window_line(alloc: Global, name: &Text, taken: &Taken) -> Result<Text, Memory>
    ensures { IfOk result (λ line. line ≡ line_of_window name.now (taken_text taken.now)) }
{
    let shown = printed(alloc, name.bytes())?;
    let mut line = Vec::from_slice(alloc, shown.bytes())?;
    push_taken(alloc, &mut line, taken)?;
    line.push(b'\n')?;
    Text::from_vec(line)
}

/// Whether a window was refused.
pub fn is_refusal(taken: &Taken) -> bool
    ensures { result ≡ is_refused (outcome_of taken.now) }
{
    match taken {
        Taken::Loaded { .. } | Taken::Repeated => false,
        Taken::Refused(_) => true,
    }
}

/// The status of a command that wrote all it had to, by whether a window was refused.
pub fn status_of_windows(refused: bool) -> Status
    ensures { result ≡ status_for refused }
{
    if refused {
        Status::Refused
    } else {
        Status::Done
    }
}
