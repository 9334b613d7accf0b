// A window with the hash keys of its rows, which its hubs, links, satellites and status tables are lent.
ghost use Rattle.std.specs.Prelude.{◌≡◌, ◌<◌, ◌≤◌, All, IfOk, IsTrue, length, map};
ghost use Rattle.std.specs.List.{list_all};
ghost use Rattle.dv_text.specs.Keys.{hashes_of};
ghost use Rattle.dv_catalog.specs.Mappings.{is_valid};
ghost use Rattle.dv_digest.specs.Fits.{refs_fit};
ghost use Rattle.dv_digest.specs.HashedExtracts.{HasKeys};
ghost use Rattle.dv_records.specs.States.{is_window};
ghost use Rattle.dv_window_keys.specs.HashedWindows.{IsHashedAt, IsHashedWindow};

use dv_catalog::Catalog;
use dv_crew::{Order, run_tasks};
use dv_digest::HashedExtract;
use dv_outside::OpenGate;
use dv_text::{KeyDigest, List, Memory, Staged, Window};
use std::alloc::Global;
use std::thread::Threads;

/// A window with the hash keys of its extracts' rows, each worked out once.
#[derive(Drop)]
pub struct HashedWindow<'a> {
    pub window: &'a Window,
    pub extracts: List<HashedExtract<'a>>,
}

// Extracts, each with the hash keys of its rows.
fn hash_all<'a, H: KeyDigest>(
    alloc: Global,
    extracts: &'a [Staged],
    digest: &H,
) -> Result<List<HashedExtract<'a>>, Memory>
    requires { IsTrue (list_all (λ staged. list_all (λ row. refs_fit row.refs) staged.rows) extracts.now) }
    ensures extracts { IfOk result (λ made. map (λ extract. extract.staged.now) made ≡ extracts.now) }
    ensures keys { IfOk result (All (HasKeys (hashes_of H.function))) }
{
    let mut made = List::with_room(alloc, extracts.len())?;
    for staged in extracts {
        made.push(HashedExtract::of(alloc, staged, digest)?)?;
    }
    Ok(made)
}

/// The window with the hash keys of its extracts' rows. Condition: it is a window of the mapping.
pub fn gathered<'a, H: KeyDigest>(
    alloc: Global,
    catalog: &Catalog,
    window: &'a Window,
    digest: &H,
) -> Result<HashedWindow<'a>, Memory>
    requires valid { IsTrue (is_valid catalog.now) }
    requires window { IsTrue (is_window catalog.now window.now) }
    ensures window { IfOk result (λ made. made.window.now ≡ window.now) }
    ensures gathered { IfOk result (IsHashedWindow (hashes_of H.function)) }
{
    let extracts = hash_all(alloc, window.extracts.items(), digest)?;
    Ok(HashedWindow { window, extracts })
}

// The extract at a place, with the hash keys of its rows.
fn hash_at<'a, H: KeyDigest>(
    alloc: Global,
    extracts: &'a [Staged],
    place: u32,
    digest: &H,
) -> Result<HashedExtract<'a>, Memory>
    requires place { place < length extracts.now }
    requires fit { IsTrue (list_all (λ staged. list_all (λ row. refs_fit row.refs) staged.rows) extracts.now) }
    ensures { IfOk result (IsHashedAt (hashes_of H.function) extracts.now place) }
{
    HashedExtract::of(alloc, &extracts[place as usize], digest)
}

// Extracts, each with the hash keys of its rows, worked out by so many workers.
fn hash_all_by<'a, R: Threads + Sync, H: KeyDigest>(
    rt: &R,
    alloc: Global,
    extracts: &'a [Staged],
    workers: u32,
    digest: &H,
) -> Result<List<HashedExtract<'a>>, Memory>
    requires few { length extracts.now ≤ 256 }
    requires fit { IsTrue (list_all (λ staged. list_all (λ row. refs_fit row.refs) staged.rows) extracts.now) }
    requires workers { (1 ≤ workers) × (workers ≤ 64) }
    ensures extracts { IfOk result (λ made. map (λ extract. extract.staged.now) made ≡ extracts.now) }
    ensures keys { IfOk result (All (HasKeys (hashes_of H.function))) }
{
    let count = extracts.len() as u32;
    let hash = |place: u32| -> Result<HashedExtract<'_>, Memory>
        requires { (place < length extracts.now) × IsTrue (list_all (λ staged. list_all (λ row. refs_fit row.refs) staged.rows) extracts.now) }
        ensures { IfOk result (IsHashedAt (hashes_of H.function) extracts.entry.now place) }
    { hash_at(alloc, extracts, place, digest) };
    run_tasks(rt, alloc, &hash, count, workers, Order::Declared, &OpenGate)
}

/// As `gathered`, worked out by so many workers, one extract a task. Conditions: it is a window of the mapping, and there are
/// 1 to 64 workers.
pub fn gathered_by<'a, R: Threads + Sync, H: KeyDigest>(
    rt: &R,
    alloc: Global,
    catalog: &Catalog,
    window: &'a Window,
    workers: u32,
    digest: &H,
) -> Result<HashedWindow<'a>, Memory>
    requires valid { IsTrue (is_valid catalog.now) }
    requires window { IsTrue (is_window catalog.now window.now) }
    requires workers { (1 ≤ workers) × (workers ≤ 64) }
    ensures window { IfOk result (λ made. made.window.now ≡ window.now) }
    ensures gathered { IfOk result (IsHashedWindow (hashes_of H.function)) }
{
    let extracts = hash_all_by(rt, alloc, window.extracts.items(), workers, digest)?;
    Ok(HashedWindow { window, extracts })
}
