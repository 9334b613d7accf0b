// Whether a window repeats another of its load date.
ghost use Rattle.std.specs.Prelude.{◌≡◌, option_map};
ghost use Rattle.dv_records.specs.Outcomes as spec;

use dv_catalog::Rule;
use dv_text::Window;

/// Whether two windows of one load date have the same feeds and rows. Takes no memory.
pub fn same_extracts(some: &Window, other: &Window) -> bool
    ensures { result ≡ spec.has_same_extracts some.now other.now }
{
    some.extracts == other.extracts
}

/// The rule W19, where a window breaks it: its feeds or rows differ from those of the other window of its
/// load date, which is sealed or open, where there is one. Takes no memory.
pub fn differs(other: Option<&Window>, window: &Window) -> Option<Rule>
    ensures { result ≡ spec.differs_from (option_map (λ w. w.now) other.entry) window.now }
{
    let other = other?;
    if same_extracts(other, window) {
        None
    } else {
        Some(Rule::Differs { load: other.load })
    }
}
