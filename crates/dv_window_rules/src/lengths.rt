// The limits of an extract's bytes, and of those of a window.
ghost use Rattle.std.specs.Prelude.{◌≡◌, IfOk, option_map};
ghost use Rattle.dv_records.specs.Outcomes as spec;
ghost use Rattle.dv_window_rules.specs.Lengths.{first_long};

use dv_catalog::{ExtractIn, MOST_EXTRACT_BYTES, MOST_WINDOW_BYTES, Rule, WindowIn};
use dv_text::{Memory, Text};
use std::alloc::Global;

// The first extract that is too long, or with which the window is.
fn long_extract(extracts: &[ExtractIn]) -> Option<&ExtractIn>
    ensures { option_map (λ extract. extract.now) result ≡ first_long 0 extracts.now }
{
    let mut bytes = 0;
    for extract in extracts {
        let more = extract.bytes.items().len();
        if more > MOST_EXTRACT_BYTES || bytes + more > MOST_WINDOW_BYTES {
            return Some(extract);
        }
        bytes += more;
    }
    None
}

/// The rule W6, where the window breaks it: the first extract, as given, that has too many bytes, or with
/// which the extracts together have too many.
#[tactic(auto, using(crate::proofs::LengthSteps::long_rules))]
pub fn too_long(alloc: Global, given: &WindowIn) -> Result<Option<Rule>, Memory>
    ensures { IfOk result (λ rule. rule ≡ spec.too_long given.now) }
{
    let Some(extract) = long_extract(given.extracts.items()) else {
        return Ok(None);
    };
    let feed = Text::of(alloc, extract.feed.bytes())?;
    Ok(Some(Rule::TooLong { feed }))
}
