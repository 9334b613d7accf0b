// `try`: the windows of manifests are loaded, and a mart's text is written.
ghost use Rattle.std.specs.Prelude.{◌≡◌, ◌≤◌, IfOk};
ghost use Rattle.dv_text.specs.Keys.{hashes_of};
ghost use Rattle.dv_outside.specs.Seen.{seen};
ghost use Rattle.dv_given.specs.Worlds.{sight};
ghost use Rattle.dv_app.specs.Causes.{IsCaused};
ghost use Rattle.dv_app.specs.Loadings.{CanTake, Goes, IsBegun, IsReadied, Leaves, Loads, ReadsTrial, TriesAll, TriesBehind};
ghost use Rattle.dv_app.specs.Says.{wanted, TrySays};

use crate::loadings::{Loading, Tools, begin_loading, take};
use crate::queries::check_what;
use crate::texts::text_of;
use crate::words::TryWords;
use dv_given::{Ending, bring, check_date, end_command, read_mapping_file, status_of_windows};
use dv_mart::What;
use dv_outside::{Failed, Folder, Gate, Sink, Status, write_all};
use dv_text::{KeyDigest, Stamp, Text};
use std::alloc::Global;
use std::thread::Threads;

/// A mart that is asked for, and what is loaded for it.
struct Readied {
    what: What,
    date: Stamp,
    loading: Loading,
}

// A manifest is read and taken, and its line is written.
fn load_one<R: Threads + Sync, F: Folder, E: Sink, H: KeyDigest, G: Gate>(
    loading: &mut Loading,
    name: &Text,
    folder: &mut F,
    err: &mut E,
    tools: &Tools<'_, '_, '_, R, H, G>,
) -> Result<(), Ending>
    requires ready { CanTake (hashes_of H.function) loading.old.office }
    ensures goes { Goes (hashes_of H.function) name.now loading.old loading.new (seen F.files F.faults folder.old folder.new) (seen E.contents E.faults err.old err.new) result }
    ensures leaves { Leaves (seen F.files F.faults folder.old folder.new) (seen E.contents E.faults err.old err.new) }
{
    let arrived = bring(tools.alloc, folder, name)?;
    let line = take(loading, name, arrived, tools)?;
    match write_all(err, line.bytes()) {
        Ok(()) => Ok(()),
        Err(Failed) => Err(Ending::Unwritten),
    }
}

// The manifests are taken one after another.
fn load_all<R: Threads + Sync, F: Folder, E: Sink, H: KeyDigest, G: Gate>(
    loading: &mut Loading,
    names: &[Text],
    folder: &mut F,
    err: &mut E,
    tools: &Tools<'_, '_, '_, R, H, G>,
) -> Result<(), Ending>
    requires begun { IsBegun (hashes_of H.function) loading.old }
    ensures loads { Loads (hashes_of H.function) names.now loading.old loading.new (seen F.files F.faults folder.old folder.new) (seen E.contents E.faults err.old err.new) result }
    ensures leaves { Leaves (seen F.files F.faults folder.old folder.new) (seen E.contents E.faults err.old err.new) }
{
    for name in names {
        load_one(loading, name, folder, err, tools)?;
    }
    Ok(())
}

// All that comes before the manifests.
fn begin<F: Folder, H: KeyDigest>(
    alloc: Global,
    asked: &TryWords<'_>,
    folder: &mut F,
    digest: &H,
) -> Result<Readied, Ending>
    ensures reads { ReadsTrial H.function (wanted asked.now) (seen F.files F.faults folder.old folder.new) result }
    ensures readied { IfOk result (IsReadied (hashes_of H.function)) }
{
    let file = read_mapping_file(alloc, folder)?;
    let what = check_what(alloc, &file.catalog, asked.what)?;
    let date = check_date(asked.date)?;
    let loading = begin_loading(alloc, file.catalog, digest.width())?;
    Ok(Readied {
        what,
        date,
        loading,
    })
}

// The manifests are taken, and the mart's text is written: whether a window was refused.
fn try_readied<R: Threads + Sync, F: Folder, O: Sink, E: Sink, H: KeyDigest, G: Gate>(
    readied: &mut Readied,
    asked: &TryWords<'_>,
    folder: &mut F,
    out: &mut O,
    err: &mut E,
    tools: &Tools<'_, '_, '_, R, H, G>,
) -> Result<bool, Ending>
    requires readied { IsReadied (hashes_of H.function) readied.old }
    ensures tries { TriesBehind H.function (wanted asked.now) readied.old (sight F.Folder O.Sink E.Sink (folder.old, out.old, err.old) (folder.new, out.new, err.new)) result }
    ensures leaves { Leaves (seen F.files F.faults folder.old folder.new) (seen E.contents E.faults err.old err.new) }
    ensures out_later { O.faults out.old ≤ O.faults out.new }
{
    load_all(&mut readied.loading, asked.manifests, folder, err, tools)?;
    let vault = readied.loading.office.vault();
    let text = text_of(tools.alloc, vault, &readied.what, readied.date)?;
    match write_all(out, text.bytes()) {
        Ok(()) => Ok(readied.loading.refused),
        Err(Failed) => Err(Ending::Unwritten),
    }
}

// All but the last line and the status: whether a window was refused.
fn try_all<R: Threads + Sync, F: Folder, O: Sink, E: Sink, H: KeyDigest, G: Gate>(
    asked: &TryWords<'_>,
    folder: &mut F,
    out: &mut O,
    err: &mut E,
    tools: &Tools<'_, '_, '_, R, H, G>,
) -> Result<bool, Ending>
    ensures tries { TriesAll H.function (wanted asked.now) (sight F.Folder O.Sink E.Sink (folder.old, out.old, err.old) (folder.new, out.new, err.new)) result }
    ensures kept { F.files folder.new ≡ F.files folder.old }
    ensures later { (F.faults folder.old ≤ F.faults folder.new) × (O.faults out.old ≤ O.faults out.new) × (E.faults err.old ≤ E.faults err.new) }
{
    let mut readied = begin(tools.alloc, asked, folder, tools.digest)?;
    let tried = try_readied(&mut readied, asked, folder, out, err, tools);
    let Readied {
        what: _,
        date: _,
        loading,
    } = readied;
    loading.close();
    tried
}

/// The command `try`.
pub(crate) fn try_command<R: Threads + Sync, F: Folder, O: Sink, E: Sink, H: KeyDigest, G: Gate>(
    asked: &TryWords<'_>,
    folder: &mut F,
    out: &mut O,
    err: &mut E,
    tools: &Tools<'_, '_, '_, R, H, G>,
) -> Status
    ensures says { TrySays H.function (wanted asked.now) (sight F.Folder O.Sink E.Sink (folder.old, out.old, err.old) (folder.new, out.new, err.new)) result }
    ensures causes { IsCaused (sight F.Folder O.Sink E.Sink (folder.old, out.old, err.old) (folder.new, out.new, err.new)) result }
    ensures kept { F.files folder.new ≡ F.files folder.old }
    ensures later { (F.faults folder.old ≤ F.faults folder.new) × (O.faults out.old ≤ O.faults out.new) × (E.faults err.old ≤ E.faults err.new) }
{
    match try_all(asked, folder, out, err, tools) {
        Ok(refused) => status_of_windows(refused),
        Err(ending) => end_command(tools.alloc, err, &ending),
    }
}
