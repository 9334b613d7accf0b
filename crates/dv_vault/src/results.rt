// What the tasks of a window give, and what is found by them.
ghost use Rattle.std.specs.Prelude.{◌≡◌, ◌==◌, ◌++◌, Contains, IfOk, IfSome, OnOk, position};
ghost use Rattle.std.specs.List.{flat_map};
ghost use Rattle.dv_vault.specs.Results as spec;

use dv_records::{DeltaFault, Rows};
use dv_text::{List, Memory};
use dv_window_keys::KeptKeys;
use std::alloc::Global;

/// The rows that a window adds to the table at a place, or why there are none.
#[derive(Drop)]
pub(crate) struct TableBatch {
    pub(crate) place: usize,
    pub(crate) rows: Result<Rows, DeltaFault>,
}

/// What a task of a window gives: a keys task nothing, since it offers its items to the table of the window's keys.
#[derive(Drop)]
pub(crate) enum TaskResult {
    Keys,
    Batch(TableBatch),
}

/// What the tasks of a window, or some of them, have found: the keys that the window brings, and batches.
#[derive(Drop)]
pub(crate) struct Found<'b> {
    pub(crate) kept: KeptKeys<'b>,
    pub(crate) batches: Vec<TableBatch>,
}

impl<'b> Found<'b> {
    /// With more batches behind the rest.
    pub(crate) fn with_batches(mut self, more: List<TableBatch>) -> Result<Found<'b>, Memory>
        ensures kept { IfOk result (λ found. found.kept ≡ self.entry.kept) }
        ensures batches { IfOk result (λ found. found.batches.items ≡ self.entry.batches.items ++ more) }
    {
        let mut more = more.into_vec()?;
        self.batches.append(&mut more)?;
        Ok(self)
    }
}

// Puts the batch that a task has given behind the rest, if it has given one.
fn put(batches: &mut Vec<TableBatch>, given: TaskResult) -> Result<(), Memory>
    ensures { OnOk result (batches.new.items ≡ batches.old.items ++ spec.batches_in given) }
{
    match given {
        TaskResult::Keys => Ok(()),
        TaskResult::Batch(batch) => {
            batches.push(batch)?;
            Ok(())
        }
    }
}

/// The batches that tasks have given.
pub(crate) fn batches_of(
    alloc: Global,
    results: List<TaskResult>,
) -> Result<Vec<TableBatch>, Memory>
    ensures { IfOk result (λ batches. batches.items ≡ flat_map spec.batches_in results) }
{
    let mut batches = Vec::new(alloc);
    for given in results.into_vec()? {
        put(&mut batches, given)?;
    }
    Ok(batches)
}

// The place of the first batch of the table at a place.
fn batch_place(batches: &[TableBatch], place: usize) -> Option<usize>
    ensures { result ≡ position (λ batch. batch.place == place) batches.now }
{
    batches.iter().position(|batch| batch.place == place)
}

/// Takes the rows for the table at a place away from batches; none where there are none.
pub(crate) fn take_batch(
    batches: &mut Vec<TableBatch>,
    place: usize,
) -> Option<Result<Rows, DeltaFault>>
    ensures taken { IfSome result (λ rows. Contains batches.old.items (record { place = place; rows = rows })) }
    ensures left { (batch : TableBatch) → Contains batches.new.items batch → Contains batches.old.items batch }
{
    let at = batch_place(batches, place)?;
    Some(batches.remove(at).rows)
}
