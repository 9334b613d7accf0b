// `exercise`: windows that are made are loaded into an office that keeps nothing, and its rows are
// counted.
ghost use Rattle.std.specs.Prelude.{◌≡◌, ◌+◌, ◌<◌, ◌≤◌, IfOk, List as list_of, OnOk};
ghost use Rattle.dv_text.specs.Keys.{hashes_of};
ghost use Rattle.dv_outside.specs.Seen.{Seen, seen};
ghost use Rattle.dv_outside.specs.declared.folders.NamedFile.{NamedFile};
ghost use Rattle.dv_app.specs.Causes.{IsCaused};
ghost use Rattle.dv_app.specs.Exercised.{ExerciseSays, HasTaken, exercised};

use crate::counts::counts_text;
use crate::generated::{WINDOWS, generated_catalog, generated_window, load_date};
use crate::loadings::{Tools, begin_loading, load_window};
use dv_given::MEMORY;
use dv_outside::{Failed, Gate, Sink, Status, end, write_all};
use dv_text::{KeyDigest, Memory, Text};
use dv_window::Office;
use std::thread::Threads;

// Makes a window, and gives it to the office.
fn load_generated<R: Threads + Sync, H: KeyDigest, G: Gate>(
    office: &mut Office,
    items: u32,
    window: u32,
    tools: &Tools<'_, '_, '_, R, H, G>,
) -> Result<(), Memory>
    requires window { window < 4 }
    requires before { HasTaken (hashes_of H.function) items window office.old }
    ensures { OnOk result (HasTaken (hashes_of H.function) items (window + 1) office.new) }
{
    let given = generated_window(tools.alloc, items, window)?;
    load_window(office, &given, tools)?;
    Ok(())
}

// Gives all windows to the office, one after another.
fn load_all<R: Threads + Sync, H: KeyDigest, G: Gate>(
    office: &mut Office,
    items: u32,
    tools: &Tools<'_, '_, '_, R, H, G>,
) -> Result<(), Memory>
    requires begun { HasTaken (hashes_of H.function) items 0 office.old }
    ensures { OnOk result (HasTaken (hashes_of H.function) items 4 office.new) }
{
    for window in 0..WINDOWS {
        load_generated(office, items, window, tools)?;
    }
    Ok(())
}

// Loads all windows into the office, and counts what it has then.
fn load_and_count<R: Threads + Sync, H: KeyDigest, G: Gate>(
    office: &mut Office,
    items: u32,
    tools: &Tools<'_, '_, '_, R, H, G>,
) -> Result<Text, Memory>
    requires begun { HasTaken (hashes_of H.function) items 0 office.old }
    ensures { IfOk result (λ text. text ≡ exercised (hashes_of H.function) items) }
{
    load_all(office, items, tools)?;
    counts_text(tools.alloc, office.vault(), load_date(WINDOWS - 1))
}

// All but the writing.
fn exercise<R: Threads + Sync, H: KeyDigest, G: Gate>(
    items: u32,
    tools: &Tools<'_, '_, '_, R, H, G>,
) -> Result<Text, Memory>
    ensures { IfOk result (λ text. text ≡ exercised (hashes_of H.function) items) }
{
    let catalog = generated_catalog(tools.alloc)?;
    let mut loading = begin_loading(tools.alloc, catalog, tools.digest.width())?;
    let text = load_and_count(&mut loading.office, items, tools);
    loading.close();
    text
}

/// The command `exercise`.
pub(crate) fn exercise_command<R: Threads + Sync, O: Sink, E: Sink, H: KeyDigest, G: Gate>(
    count: u32,
    out: &mut O,
    err: &mut E,
    tools: &Tools<'_, '_, '_, R, H, G>,
) -> Status
    ensures says { ExerciseSays H.function count (seen O.contents O.faults out.old out.new) (seen E.contents E.faults err.old err.new) result }
    ensures causes { (folder : Seen (list_of NamedFile)) → IsCaused (record { folder = folder; out = seen O.contents O.faults out.old out.new; err = seen E.contents E.faults err.old err.new }) result }
    ensures later { (O.faults out.old ≤ O.faults out.new) × (E.faults err.old ≤ E.faults err.new) }
{
    match exercise(count, tools) {
        Ok(text) => match write_all(out, text.bytes()) {
            Ok(()) => Status::Done,
            Err(Failed) => Status::WriteFault,
        },
        Err(Memory) => end(err, MEMORY, Status::Memory),
    }
}
