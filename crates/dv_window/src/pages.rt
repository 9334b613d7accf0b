// The rows of a stored table of a snapshot, read page after page and held to a form.
ghost use Rattle.std.specs.List.{position};
ghost use Rattle.std.specs.Prelude.{◌≡◌, ◌<◌, ◌^◌, ◌&&◌, [], None, Some, IfErr, IfOk, OnOk, nat_le, nat_lt, not};
ghost use Rattle.std.specs.Bool.{OnTrue};
ghost use Rattle.dv_text.specs.Told.{Told};
ghost use Rattle.dv_records.specs.Changes.{KeeperCause};
ghost use Rattle.dv_window.specs.Pages.{AreFirst, CountsFlaw, IsGrown, TellsPage, TellsRows, joined};
ghost use Rattle.dv_window.specs.StoredRows as spec;

use crate::row_forms::RowForm;
use crate::snapshot_queries::SnapshotQuery;
use dv_records::{Keeper, KeeperError, PAGE_ROWS, Rows};
use dv_text::{List, Memory};
use std::alloc::Global;

/// What reading came to: the rows that are asked for, or all where there are fewer; or that one is
/// flawed, counted from 1.
#[derive(Drop)]
pub(crate) enum Read<R> {
    Rows(List<R>),
    Flawed { row: u64 },
}

// The place of the first row that isn't sound.
fn first_unsound<R, F: RowForm<R>>(form: &F, rows: &[R]) -> Option<usize>
    ensures { result ≡ position (λ row. not (F.is_sound form.now row)) rows.now }
{
    rows.iter().position(|row| !form.is_sound(row))
}

// Rows of the form's kind, or the place of the first that isn't sound.
fn checked<R: Drop, F: RowForm<R>>(form: &F, rows: List<R>) -> Result<List<R>, u64>
    ensures sound { IfOk result (λ sound. (position (λ row. not (F.is_sound form.now row)) rows ≡ None) × (sound ≡ rows)) }
    ensures flawed { IfErr result (λ place. position (λ row. not (F.is_sound form.now row)) rows ≡ Some place) }
    ensures bound { IfErr result (λ place. place < 2 ^ 63) }
{
    match first_unsound(form, rows.items()) {
        Some(place) => Err(place as u64),
        None => Ok(rows),
    }
}

// No rows, of so many of another kind, of which the first is flawed, if there is one.
fn no_rows<R>(alloc: Global, count: u64) -> Result<List<R>, u64>
    ensures sound { IfOk result (λ rows. (spec.first_place count ≡ None) × (rows ≡ [])) }
    ensures flawed { IfErr result (λ place. spec.first_place count ≡ Some place) }
    ensures bound { IfErr result (λ place. place < 2 ^ 63) }
{
    if count == 0 {
        Ok(List::new(alloc))
    } else {
        Err(0)
    }
}

// The rows that were read, or the place of the first flawed one.
fn rows_of<R: Drop, F: RowForm<R>>(alloc: Global, form: &F, rows: Rows) -> Result<List<R>, u64>
    ensures sound { IfOk result (λ own. (spec.flaw_place F.own (F.is_sound form.now) rows ≡ None) × (own ≡ spec.own_rows (F.own rows))) }
    ensures flawed { IfErr result (λ place. spec.flaw_place F.own (F.is_sound form.now) rows ≡ Some place) }
    ensures bound { IfErr result (λ place. place < 2 ^ 63) }
{
    let count = rows.count();
    match form.own(rows) {
        Some(rows) => checked(form, rows),
        None => no_rows(alloc, count),
    }
}

// What rows that were read come to, held to a form.
fn held<R: Drop, F: RowForm<R>>(alloc: Global, form: &F, rows: Rows) -> Read<R>
    ensures counted { CountsFlaw result }
    ensures told { TellsRows F.own (F.is_sound form.now) rows result }
{
    match rows_of(alloc, form, rows) {
        Ok(rows) => Read::Rows(rows),
        Err(place) => Read::Flawed { row: place + 1 },
    }
}

// Puts the rows of a page behind those read before it, or in the place of none.
fn put_page(rows: &mut Rows, page: Rows) -> Result<(), Memory>
    ensures { OnOk result (rows.new ≡ joined rows.old page) }
{
    if rows.is_empty() {
        *rows = page;
        return Ok(());
    }
    rows.put_behind(page)
}

// Whether there may be more rows behind a page, which has as many as were asked for and added some.
fn goes_on(taken: u64, most: u64, before: u64, after: u64) -> bool
    ensures { result ≡ (nat_le most taken && nat_lt before after) }
{
    taken >= most && after > before
}

// Takes the page behind the rows read so far, and puts its rows behind them. Whether there may be more.
fn take_page<K: Keeper>(
    alloc: Global,
    keeper: &mut K,
    asked: &SnapshotQuery,
    rows: &mut Rows,
) -> Result<bool, KeeperError>
    requires { Told (K.store keeper.old) (λ s. AreFirst asked.now.most (spec.stored_rows asked.now s.snapshots) rows.old) }
    ensures told { IfOk result (λ more. Told (K.store keeper.old) (λ s. TellsPage asked.now.most (spec.stored_rows asked.now s.snapshots) rows.new more)) }
    ensures grown { IfOk result (λ more. OnTrue more (IsGrown asked.now.most rows.old rows.new)) }
    ensures kept { K.store keeper.new ≡ K.store keeper.old }
    ensures cause { KeeperCause (K.faults keeper.old) (K.faults keeper.new) result }
{
    let have = rows.count();
    if have >= asked.most {
        return Ok(false);
    }
    let most = (asked.most - have).min(PAGE_ROWS as u64);
    let page = keeper.snapshot_rows(alloc, asked.date, asked.id, have, most as u32)?;
    let taken = page.count();
    put_page(rows, page)?;
    Ok(goes_on(taken, most, have, rows.count()))
}

/// The rows of a stored table that are asked for, read from the first on in pages of 1,000, until
/// they end or are as many, and then held to the form; or the number of the first that is of another
/// kind than the form's, or hasn't the form. So no keeper holds the call for ever. `Failed` comes only where the keeper's
/// count of faults rose, and `Memory` where memory ran out; the store is as before.
pub(crate) fn read_rows<R: Drop, F: RowForm<R>, K: Keeper>(
    alloc: Global,
    keeper: &mut K,
    asked: &SnapshotQuery,
    form: &F,
) -> Result<Read<R>, KeeperError>
    ensures counted { IfOk result CountsFlaw }
    ensures told { IfOk result (λ read. Told (K.store keeper.old) (λ s. TellsRows F.own (F.is_sound form.now) (spec.read_rows asked.now s.snapshots) read)) }
    ensures kept { K.store keeper.new ≡ K.store keeper.old }
    ensures cause { KeeperCause (K.faults keeper.old) (K.faults keeper.new) result }
{
    let mut rows = Rows::Pits(List::new(alloc));
    'pages: loop {
        if !take_page(alloc, keeper, asked, &mut rows)? {
            return Ok(held(alloc, form, rows));
        }
    }
}
