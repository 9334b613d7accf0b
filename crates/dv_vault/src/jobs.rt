// The rows that a window adds, worked out by several workers.
ghost use Rattle.std.specs.Prelude.{◌≡◌, ◌+◌, ◌<◌, ◌≤◌, [], All, Contains, IfErr, IfOk, IfSome, IsTrue, Some, length, map, option_map, slice_get};
ghost use Rattle.dv_text.specs.Keys.{hashes_of};
ghost use Rattle.dv_board.specs.KeyTables.{IsSeatOf};
ghost use Rattle.dv_catalog.specs.Mappings.{is_valid};
ghost use Rattle.dv_catalog.specs.Tables.{tables};
ghost use Rattle.dv_crew.specs.Results.{AreResults};
ghost use Rattle.dv_records.specs.RowViews.{are_up_to};
ghost use Rattle.dv_records.specs.States.{is_window};
ghost use Rattle.dv_window_keys.specs.HashedWindows.{IsHashedWindow};
ghost use Rattle.dv_window_keys.specs.ItemKeys.{keys_in};
ghost use Rattle.dv_window_keys.specs.Tasks as tasks_spec;
ghost use Rattle.dv_window_keys.specs.WindowItems as items_spec;
ghost use Rattle.dv_window_keys.specs.WindowItems.{IsKept};
ghost use Rattle.dv_vault.specs.Additions as additions;
ghost use Rattle.dv_vault.specs.Results as spec;
ghost use Rattle.dv_vault.specs.Vaults.{IsVaultOf, added_to, entry_of, names_of_hubs};

use crate::additions::AdditionFault;
use crate::batches::{delta_of, deltas_beside};
use crate::hub_keys::HubKeys;
use crate::raw_tables::find_place;
use crate::results::{Found, TableBatch, TaskResult, batches_of};
use crate::tables::Table;
use crate::teams::Team;
use dv_board::{KeySeat, KeyTable};
use dv_catalog::{Catalog, TableId};
use dv_crew::{Order, run_tasks, run_tasks_with};
use dv_outside::{Gate, OpenGate};
use dv_records::Rows;
use dv_text::{KeyDigest, List, Memory};
use dv_window_keys::{
    HashedWindow, KeptKeys, KeyOffers, Mixing, Task, WindowItem, WindowItems, mixing_of,
    offer_items, ranges_of, tasks_of, window_items,
};
use std::alloc::Global;
use std::thread::Threads;

/// A window of a mapping, and the tables to which it adds rows: what workers read, and nobody changes.
#[derive(Drop)]
pub(crate) struct WindowJob<'t, 'n, 'b, 'a, H: KeyDigest> {
    pub(crate) tables: &'t [Table],
    pub(crate) names: &'n HubKeys<'t>,
    pub(crate) window: &'b HashedWindow<'a>,
    pub(crate) catalog: &'t Catalog,
    pub(crate) digest: &'t H,
    ghost tables_are: { IsVaultOf catalog.now (map entry_of tables.now) },
    ghost dated: { IsTrue (are_up_to window.now.window.now.load (map entry_of tables.now)) },
    ghost valid: { IsTrue (is_valid catalog.now) },
    ghost whole: { IsTrue (is_window catalog.now window.now.window.now) },
    ghost gathered: { IsHashedWindow (hashes_of H.function) window.now },
}

impl<'t, 'n, 'b, 'a, H: KeyDigest> WindowJob<'t, 'n, 'b, 'a, H> {
    // What the window adds to the table at a place.
    fn batch_at(&self, alloc: Global, place: usize, kept: Option<&KeptKeys<'b>>) -> TableBatch
        requires place { place < length self.now.tables.now }
        requires kept { IfSome kept (λ kept. IsKept self.now.catalog.now (hashes_of H.function) self.now.window.now.window.now kept.now) }
        ensures batch { spec.IsBatch self.now.catalog.now (hashes_of H.function) (names_of_hubs self.now.names.now) self.now.window.now.window.now (map entry_of self.now.tables.now) result }
        ensures place { result.place ≡ place }
    {
        let rows = delta_of(
            alloc,
            self.tables,
            place,
            self.names,
            self.window,
            kept,
            self.catalog,
            self.digest,
        );
        TableBatch { place, rows }
    }

    // What the window adds to a table of the mapping.
    fn batch(&self, alloc: Global, id: TableId) -> TableBatch
        requires { Contains (tables self.now.catalog.now) id }
        ensures batch { spec.IsBatch self.now.catalog.now (hashes_of H.function) (names_of_hubs self.now.names.now) self.now.window.now.window.now (map entry_of self.now.tables.now) result }
        ensures table { option_map (λ entry. entry.table) (slice_get (map entry_of self.now.tables.now) result.place) ≡ Some id }
    {
        match find_place(self.tables, id) {
            Some(place) => self.batch_at(alloc, place, None),
            None => unreachable!(),
        }
    }

    // What a task of the window gives.
    fn run(&self, alloc: Global, task: Task) -> TaskResult
        requires { Contains (tasks_spec.tasks self.now.catalog.now self.now.window.now.window.now) task }
        ensures { spec.IsResultOf self.now.catalog.now (hashes_of H.function) (names_of_hubs self.now.names.now) self.now.window.now.window.now (map entry_of self.now.tables.now) task result }
    {
        match task {
            Task::Keys(_) => TaskResult::Keys,
            Task::Batch(table) => TaskResult::Batch(self.batch(alloc, table)),
        }
    }
}

// Does the task at a place among the tasks of a window: offers its items, and gives what it gives.
fn run_at<'b, H: KeyDigest, G: Gate>(
    alloc: Global,
    job: &WindowJob<'_, '_, 'b, '_, H>,
    tasks: &[Task],
    offers: &KeyOffers<'_, '_, 'b>,
    gate: &G,
    place: u32,
    seat: KeySeat,
) -> (KeySeat, TaskResult)
    requires place { place < length tasks.now }
    requires tasks { tasks.now ≡ tasks_spec.tasks job.now.catalog.now job.now.window.now.window.now }
    requires ranges { length offers.now.ranges.now ≡ length tasks.now }
    requires mine { IsSeatOf keys_in offers.now.table.now seat }
    ensures offers { items_spec.OffersOf (map items_spec.item_of offers.now.items.now) offers.now.ranges.now place seat result.0 }
    ensures given { spec.IsResultAt job.now.catalog.now (hashes_of H.function) (names_of_hubs job.now.names.now) job.now.window.now.window.now (map entry_of job.now.tables.now) place result.1 }
{
    let mut seat = seat;
    offers.offer(gate, &mut seat, place);
    (seat, job.run(alloc, tasks[place as usize]))
}

// What the tasks of a window give, each done by a worker of a team, which offers the items of its tasks.
fn results_by<'b, R: Threads + Sync, H: KeyDigest, G: Gate>(
    rt: &R,
    alloc: Global,
    job: &WindowJob<'_, '_, 'b, '_, H>,
    tasks: &[Task],
    offers: &KeyOffers<'_, '_, 'b>,
    seat: KeySeat,
    team: &Team<'_, G>,
) -> Result<(List<TaskResult>, KeySeat), Memory>
    requires few { length tasks.now ≤ 256 }
    requires tasks { tasks.now ≡ tasks_spec.tasks job.now.catalog.now job.now.window.now.window.now }
    requires ranges { length offers.now.ranges.now ≡ length tasks.now }
    requires mine { IsSeatOf keys_in offers.now.table.now seat }
    requires new { (seat.offers ≡ []) × (seat.share ≡ 64) }
    ensures results { IfOk result (λ r. AreResults (spec.IsResultAt job.now.catalog.now (hashes_of H.function) (names_of_hubs job.now.names.now) job.now.window.now.window.now (map entry_of job.now.tables.now)) (length tasks.now) r.0) }
    ensures mine { IfOk result (λ r. IsSeatOf keys_in offers.now.table.now r.1) }
    ensures offers { IfOk result (λ r. items_spec.HaveAllOffered (map items_spec.item_of offers.now.items.now) offers.now.ranges.now r.1.offers) }
    ensures share { IfOk result (λ r. r.1.share ≡ 64) }
{
    let gate = team.gate;
    let task = |place: u32, seat: KeySeat| -> Result<(KeySeat, TaskResult), Memory>
        requires { (place < length tasks.now) × (tasks.now ≡ tasks_spec.tasks job.now.catalog.now job.now.window.now.window.now) × (length offers.now.ranges.now ≡ length tasks.now) × IsSeatOf keys_in offers.now.table.now seat }
        ensures { IfOk result (λ r. spec.IsDoneAt job.entry.now.catalog.now (hashes_of H.function) job.entry.now.names.now job.entry.now.window.now job.entry.now.tables.now offers.entry.now.items.now offers.entry.now.ranges.now place seat r.0 r.1) }
    { Ok(run_at(alloc, job, tasks, offers, gate, place, seat)) };
    let count = tasks.len() as u32;
    run_tasks_with(
        rt,
        alloc,
        offers,
        &task,
        seat,
        count,
        team.workers,
        team.order,
        gate,
    )
}

// What the tasks of a window give, done by a team, and the numbers of the items that the table of the window's keys keeps.
fn done_by<'b, R: Threads + Sync, H: KeyDigest, G: Gate>(
    rt: &R,
    alloc: Global,
    job: &WindowJob<'_, '_, 'b, '_, H>,
    items: &[WindowItem<'b>],
    mixing: Mixing,
    team: &Team<'_, G>,
) -> Result<(List<TaskResult>, Vec<u32>), Memory>
    requires few { length items.now ≤ 2000000 }
    ensures results { IfOk result (λ r. spec.AreGiven job.now.catalog.now (hashes_of H.function) (names_of_hubs job.now.names.now) job.now.window.now.window.now (map entry_of job.now.tables.now) r.0) }
    ensures numbers { IfOk result (λ r. items_spec.AreLeast (map items_spec.item_of items.now) r.1.items) }
{
    let tasks = tasks_of(alloc, job.catalog, job.window.window)?;
    let tasks = tasks.items();
    let (ranges, end) = ranges_of(alloc, tasks, items)?;
    let (table, seat) = KeyTable::new(alloc, WindowItems { items, mixing })?;
    let (results, mut seat) = results_by(
        rt,
        alloc,
        job,
        tasks,
        &KeyOffers {
            table: &table,
            items,
            ranges: &ranges,
        },
        seat,
        team,
    )?;
    let count = items.len() as u32;
    offer_items(&table, items, team.gate, &mut seat, end, count);
    let (_items, numbers) = table.close(seat);
    Ok((results, numbers))
}

// The keys that the window brings, and the batches of the tables of its feeds, worked out by a team.
fn found_by<'b, R: Threads + Sync, H: KeyDigest, G: Gate>(
    rt: &R,
    alloc: Global,
    job: &WindowJob<'_, '_, 'b, '_, H>,
    team: &Team<'_, G>,
) -> Result<Found<'b>, Memory>
    ensures { IfOk result (spec.IsFound job.now.catalog.now (hashes_of H.function) (names_of_hubs job.now.names.now) job.now.window.now.window.now (map entry_of job.now.tables.now)) }
{
    let items = window_items::<H>(alloc, job.catalog, job.window)?;
    let mixing = mixing_of(alloc, job.window, job.digest)?;
    let (results, numbers) = done_by(rt, alloc, job, &items, mixing, team)?;
    let batches = batches_of(alloc, results)?;
    let kept = KeptKeys { items, numbers };
    Ok(Found { kept, batches })
}

// How many hubs and links a mapping has, whose tables are the first ones.
fn parent_count(catalog: &Catalog) -> u32
    ensures value { result ≡ length catalog.now.hubs + length catalog.now.links }
    ensures few { result ≤ 256 }
    ensures first { result ≤ length (tables catalog.now) }
{
    catalog.hub_count() + catalog.link_count()
}

// What the window adds to the tables of hubs and links, each worked out by one of so many workers.
fn parents_by<'b, R: Threads + Sync, H: KeyDigest>(
    rt: &R,
    alloc: Global,
    job: &WindowJob<'_, '_, 'b, '_, H>,
    kept: &KeptKeys<'b>,
    workers: u32,
) -> Result<List<TableBatch>, Memory>
    requires kept { IsKept job.now.catalog.now (hashes_of H.function) job.now.window.now.window.now kept.now }
    requires workers { (1 ≤ workers) × (workers ≤ 64) }
    ensures { IfOk result (All (spec.IsBatch job.now.catalog.now (hashes_of H.function) (names_of_hubs job.now.names.now) job.now.window.now.window.now (map entry_of job.now.tables.now))) }
{
    let count = parent_count(job.catalog);
    let batch = |place: u32| -> Result<TableBatch, Memory>
        requires { (place < length job.now.tables.now) × IsKept job.now.catalog.now (hashes_of H.function) job.now.window.now.window.now kept.now }
        ensures { IfOk result (spec.IsBatch job.entry.now.catalog.now (hashes_of H.function) (names_of_hubs job.entry.now.names.now) job.entry.now.window.now.window.now (map entry_of job.entry.now.tables.now)) }
    { Ok(job.batch_at(alloc, place as usize, Some(kept))) };
    run_tasks(
        rt,
        alloc,
        &batch,
        count,
        workers,
        Order::Declared,
        &OpenGate,
    )
}

/// The rows that the window adds to each table, or the first collision that it makes, worked out by a team: first the
/// tasks of the window, then the tables of hubs and links, one table a task, for which the keys of all feeds are needed.
pub(crate) fn deltas_by<R: Threads + Sync, H: KeyDigest, G: Gate>(
    rt: &R,
    alloc: Global,
    job: &WindowJob<'_, '_, '_, '_, H>,
    team: &Team<'_, G>,
) -> Result<List<Rows>, AdditionFault>
    ensures rows { IfOk result (λ batches. batches ≡ map (added_to job.now.catalog.now (hashes_of H.function) job.now.window.now.window.now) (map entry_of job.now.tables.now)) }
    ensures apart { IfOk result (λ batches. additions.AreApartBy job.now.catalog.now (hashes_of H.function) (names_of_hubs job.now.names.now) job.now.window.now.window.now (map entry_of job.now.tables.now)) }
    ensures follow { IfOk result (additions.FollowAll job.now.window.now.window.now.load (map entry_of job.now.tables.now)) }
    ensures clashes { IfErr result (additions.ClashesAt job.now.catalog.now (hashes_of H.function) (names_of_hubs job.now.names.now) job.now.window.now.window.now (map entry_of job.now.tables.now)) }
{
    let found = found_by(rt, alloc, job, team)?;
    let parents = parents_by(rt, alloc, job, &found.kept, team.workers)?;
    let found = found.with_batches(parents)?;
    deltas_beside(
        alloc,
        job.tables,
        job.names,
        job.window,
        job.catalog,
        job.digest,
        found,
    )
}
