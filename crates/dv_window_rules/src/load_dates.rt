// The rules of a window's load date.
ghost use Rattle.std.specs.Prelude.{◌≡◌, None, Option, if◌then◌else◌, option_map};
ghost use Rattle.dv_text.specs.declared.rows.Window.{Window};
ghost use Rattle.dv_catalog.specs.declared.windows.WindowIn.{WindowIn};
ghost use Rattle.dv_records.specs.Outcomes as spec;

use dv_catalog::Rule;
use dv_text::Stamp;

/// The rule W4, where a load date breaks it: it is not later than the last sealed one, and is none of the
/// sealed ones. Takes no memory.
pub fn late(last: Option<Stamp>, is_sealed: bool, load: Stamp) -> Option<Rule>
    ensures { result ≡ if is_sealed then None else spec.late_after last load }
{
    if is_sealed {
        return None;
    }
    let last = last?;
    if load <= last {
        Some(Rule::Late { last })
    } else {
        None
    }
}

/// The rule W5, where a load date breaks it: a window is open and has another. `begun` is the load date of
/// the open window. Takes no memory.
pub fn open_other(begun: Option<Stamp>, load: Stamp) -> Option<Rule>
    ensures { (window : Option Window) (given : WindowIn) → option_map (λ w. w.load) window ≡ begun → given.load ≡ load → result ≡ spec.open_other window given }
{
    let begun = begun?;
    if begun == load {
        None
    } else {
        Some(Rule::OpenOther { load: begun })
    }
}
