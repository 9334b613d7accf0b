// What the values of options say.
ghost use Rattle.std.specs.Prelude.{◌≡◌, ◌≤◌, IfSome, option_map};
ghost use Rattle.dv_app.specs.LoadOptions.{loads_by};
ghost use Rattle.dv_app.specs.Options as spec;

use crate::load_options::LoadOptions;
use crate::options::Found;
use dv_given::{WORKERS, workers_in};
use dv_text::Text;
use dv_window::Order;

// The order that the value of an option says.
fn order_in(word: &[u8]) -> Option<Order>
    ensures { result ≡ spec.order_in word.now }
{
    if word == b"declared".as_slice() {
        Some(Order::Declared)
    } else if word == b"reverse".as_slice() {
        Some(Order::Reverse)
    } else {
        None
    }
}

// How many workers the value of an option says.
fn workers_of(value: &Option<Text>) -> Option<u32>
    ensures workers { result ≡ spec.workers_of value.now }
    ensures some { IfSome result (λ workers. 1 ≤ workers) }
    ensures most { IfSome result (λ workers. workers ≤ 64) }
{
    match value {
        Some(value) => workers_in(value.bytes()),
        None => Some(WORKERS),
    }
}

// The order that the value of an option says, if there is one.
fn order_of(value: &Option<Text>) -> Option<Order>
    ensures { result ≡ spec.order_of value.now }
{
    match value {
        Some(value) => order_in(value.bytes()),
        None => Some(Order::Declared),
    }
}

/// How windows are loaded by what was found; none where the value of an option has not its form.
pub(crate) fn load_options(found: &Found) -> Option<LoadOptions>
    ensures { option_map loads_by result ≡ spec.load_options found.now }
{
    let workers = workers_of(&found.workers)?;
    let order = order_of(&found.order)?;
    Some(LoadOptions { workers, order })
}
