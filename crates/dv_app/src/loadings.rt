// One manifest is taken into an office that keeps nothing: its window is loaded, repeated or
// refused, and its line is made.
ghost use Rattle.std.specs.Prelude.{◌≡◌, IfOk};
ghost use Rattle.dv_text.specs.Keys.{Hashes, hashes_of};
ghost use Rattle.dv_given.specs.Readings.{arrival_of};
ghost use Rattle.dv_app.specs.Loadings.{CanTake, IsBegun, TookArrival, TookLine, TookWindow};

use crate::load_options::LoadOptions;
use crate::null_keepers::NullKeeper;
use dv_catalog::{Catalog, WindowIn};
use dv_given::{Arrived, Taken, is_refusal, window_line};
use dv_outside::Gate;
use dv_records::LoadAnswer;
use dv_text::{KeyDigest, Memory, Text};
use dv_window::{Office, workers_for};
use std::alloc::Global;
use std::thread::Threads;

/// What windows are loaded by: memory, the runtime of their workers, how many these are and the order of tasks, how
/// keys are hashed, and the gate between tasks.
#[derive(Drop)]
pub(crate) struct Tools<'r, 'd, 'g, R, H: KeyDigest, G: Gate> {
    pub alloc: Global,
    pub rt: &'r R,
    pub options: LoadOptions,
    pub digest: &'d H,
    pub gate: &'g G,
}

/// What is loaded: the office, and whether a window was refused. It is closed in the end, and never let go.
pub(crate) struct Loading {
    pub office: Office,
    pub refused: bool,
}

impl Loading {
    /// Lets the office go.
    pub(crate) fn close(self) {
        let Loading { office, refused: _ } = self;
        office.close();
    }
}

/// An office of no windows, for digests of so many bytes.
pub(crate) fn begin_loading(alloc: Global, catalog: Catalog, width: u8) -> Result<Loading, Memory>
    ensures mapping { IfOk result (λ loading. loading.office.vault.mapping ≡ catalog) }
    ensures begun { (hashes : Hashes) → IfOk result (IsBegun hashes) }
{
    let office = Office::begin(alloc, catalog, width)?;
    Ok(Loading {
        office,
        refused: false,
    })
}

/// Gives a window to the office, over a keeper that doesn't fail.
pub(crate) fn load_window<R: Threads + Sync, H: KeyDigest, G: Gate>(
    office: &mut Office,
    given: &WindowIn,
    tools: &Tools<'_, '_, '_, R, H, G>,
) -> Result<Taken, Memory>
    requires ready { CanTake (hashes_of H.function) office.old }
    ensures { IfOk result (TookWindow (hashes_of H.function) given.now office.old office.new) }
{
    let mut keeper = NullKeeper;
    let workers = workers_for(given, tools.options.workers);
    match office.load(
        tools.rt,
        &mut keeper,
        given,
        workers,
        tools.options.order,
        tools.digest,
        tools.gate,
    ) {
        LoadAnswer::Loaded { rows } => Ok(Taken::Loaded { rows }),
        LoadAnswer::Repeated => Ok(Taken::Repeated),
        LoadAnswer::Refused(rule) => Ok(Taken::Refused(rule)),
        LoadAnswer::Memory => Err(Memory),
        LoadAnswer::Damaged(_) | LoadAnswer::KeeperFault => unreachable!(),
    }
}

// Gives what a manifest brought to the office, where it is a window.
fn load_arrived<R: Threads + Sync, H: KeyDigest, G: Gate>(
    office: &mut Office,
    arrived: Arrived,
    tools: &Tools<'_, '_, '_, R, H, G>,
) -> Result<Taken, Memory>
    requires { CanTake (hashes_of H.function) office.old }
    ensures { IfOk result (TookArrival (hashes_of H.function) (arrival_of arrived) office.old office.new) }
{
    match arrived {
        Arrived::Broken(rule) => Ok(Taken::Refused(rule)),
        Arrived::Brought(given) => load_window(office, &given, tools),
    }
}

/// Takes what a manifest brought, and makes its line.
pub(crate) fn take<R: Threads + Sync, H: KeyDigest, G: Gate>(
    loading: &mut Loading,
    name: &Text,
    arrived: Arrived,
    tools: &Tools<'_, '_, '_, R, H, G>,
) -> Result<Text, Memory>
    requires { CanTake (hashes_of H.function) loading.old.office }
    ensures { IfOk result (TookLine (hashes_of H.function) name.now (arrival_of arrived) loading.old loading.new) }
{
    let taken = load_arrived(&mut loading.office, arrived, tools)?;
    let line = window_line(tools.alloc, name, &taken)?;
    loading.refused |= is_refusal(&taken);
    Ok(line)
}
