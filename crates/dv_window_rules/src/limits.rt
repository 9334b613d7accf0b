// The limits of windows and of the vault.
ghost use Rattle.std.specs.Prelude.{◌≡◌, ◌-◌, ◌^◌, ◌<◌, min};
ghost use Rattle.dv_records.specs.Outcomes as spec;

use dv_catalog::Rule;

/// The most records of an extract.
pub(crate) const MOST_RECORDS: usize = 200_000;

/// The most records of the extracts of a window together.
pub(crate) const MOST_WINDOW_RECORDS: usize = 400_000;

/// The most that a vault may weigh.
pub const MOST_WEIGHT: u128 = 1_073_741_824;

/// The most windows that a vault may have.
pub const MOST_WINDOWS: usize = 10_000;

/// The rule W21, where a vault breaks it that with its next window weighs so much, and has so many sealed
/// windows. A number that the rule has no room for is named as the greatest that it has. Takes no memory.
pub fn full(weight: u128, windows: u64) -> Option<Rule>
    ensures value { weight < 2 ^ 64 → windows < 2 ^ 32 → result ≡ spec.full_at weight windows }
    ensures named { result ≡ spec.full_at (min weight (2 ^ 64 - 1)) (min windows (2 ^ 32 - 1)) }
{
    if weight <= MOST_WEIGHT && windows < MOST_WINDOWS as u64 {
        return None;
    }
    Some(Rule::VaultFull {
        weight: weight.min(u128::from(u64::MAX)) as u64,
        windows: windows.min(u64::from(u32::MAX)) as u32,
    })
}
