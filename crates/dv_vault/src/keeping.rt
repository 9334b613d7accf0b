// A window is kept: a keeper takes it, and then the tables.
ghost use Rattle.std.specs.Prelude.{◌≡◌, ◌+◌, ◌≤◌, ◌++◌, ◌∷◌, [], IfErr, IfNone, IfOk, IfSome, IsSome, IsTrue, List as list_of, None, OnErr, OnOk, Some, false, length, map, true};
ghost use Rattle.std.specs.List.{AllZip};
ghost use Rattle.dv_text.specs.declared.rows.WindowHead.{WindowHead};
ghost use Rattle.dv_text.specs.Causes.{Rose};
ghost use Rattle.dv_text.specs.Told.{Told};
ghost use Rattle.dv_records.specs.Changes.{Changes, KeeperCause};
ghost use Rattle.dv_records.specs.States.{head_of};
ghost use Rattle.dv_records.specs.Stores.{are_apart, is_of_kind, row_count, rows_in};
ghost use Rattle.dv_vault.specs.Keeping as spec;
ghost use Rattle.dv_vault.specs.Additions as parts_spec;
ghost use Rattle.dv_vault.specs.Additions.{Fits, raw_with};
ghost use Rattle.dv_vault.specs.Vaults.{Follow, entry_of};

use crate::begun::{Begun, Part};
use crate::breaks::Untaken;
use crate::tables::Table;
use crate::vaults::Vault;
use dv_catalog::TableId;
use dv_records::{Keeper, KeeperError, Rows};
use dv_text::{Duplicate, List, Memory, Window, WindowHead};
use std::alloc::Global;
use std::mem::swap;

/// The head of a window: its load date and its feeds.
pub fn head(alloc: Global, window: &Window) -> Result<WindowHead, Memory>
    ensures { IfOk result (λ head. head ≡ head_of window.now) }
{
    let mut feeds = List::new(alloc);
    for staged in window.extracts.items() {
        feeds.push(staged.feed)?;
    }
    Ok(WindowHead {
        load: window.load,
        feeds,
    })
}

// All rows of a part, where some are there and some are lacking. Only a store that no load has left has such a table.
fn joined(part: &Part) -> Result<Option<Rows>, Memory>
    ensures some { IfOk result (λ joined. IfSome joined (λ rows. rows ≡ parts_spec.whole_part part.now)) }
    ensures none { IfOk result (λ joined. IfNone joined (row_count part.now.opened ≡ 0)) }
{
    if part.opened.count() == 0 {
        return Ok(None);
    }
    let mut rows = part.opened.copy()?;
    rows.put_behind(part.rest.copy()?)?;
    Ok(Some(rows))
}

// What was lacking is there. `joined` has all rows of the part, where some were there. Takes no memory.
fn settle(alloc: Global, table: TableId, part: &mut Part, joined: Option<Rows>)
    requires opened { IsTrue (is_of_kind table part.old.opened) }
    requires rest { IsTrue (is_of_kind table part.old.rest) }
    requires some { IfSome joined (λ rows. rows ≡ parts_spec.whole_part part.old) }
    requires none { IfNone joined (row_count part.old.opened ≡ 0) }
    ensures { part.new ≡ parts_spec.taken_part part.old }
{
    let Some(rows) = joined else {
        swap(&mut part.opened, &mut part.rest);
        return;
    };
    part.opened = rows;
    part.rest = Rows::none_of(alloc, table);
}

// Puts what a table lacks behind its rows, where there is any.
#[tactic(auto, using(crate::proofs::StoreSteps::stays_told))]
fn append_rest<K: Keeper>(
    alloc: Global,
    keeper: &mut K,
    table: TableId,
    part: &mut Part,
) -> Result<(), KeeperError>
    requires opened { IsTrue (is_of_kind table part.old.opened) }
    requires rest { IsTrue (is_of_kind table part.old.rest) }
    requires stored { Told (K.store keeper.old) (λ s. IsTrue (is_of_kind table (rows_in table s.tables))) }
    ensures change { Changes (spec.with_batch table part.old.rest) (K.store keeper.old) (K.store keeper.new) result }
    ensures taken { OnOk result (part.new ≡ parts_spec.taken_part part.old) }
    ensures kept { OnErr result (part.new ≡ part.old) }
    ensures stays { IsSome (K.store keeper.old) → IsSome (K.store keeper.new) }
    ensures cause { KeeperCause (K.faults keeper.old) (K.faults keeper.new) result }
{
    if part.rest.count() == 0 {
        return Ok(());
    }
    let joined = joined(part)?;
    keeper.append(alloc, table, &part.rest)?;
    settle(alloc, table, part, joined);
    Ok(())
}

// Puts what each table lacks behind its rows, in table order.
fn append_all<K: Keeper>(
    alloc: Global,
    keeper: &mut K,
    tables: &[Table],
    parts: &mut [Part],
) -> Result<(), KeeperError>
    requires parts { parts_spec.ArePartsOf (map entry_of tables.now) parts.old }
    requires apart { IsTrue (are_apart (map entry_of tables.now)) }
    requires told { Told (K.store keeper.old) (λ s. spec.HasRows s (parts_spec.tables_there (map entry_of tables.now) parts.old)) }
    ensures told { OnOk result (spec.Became (spec.TookRows (parts_spec.tables_whole (map entry_of tables.now) parts.old)) (K.store keeper.old) (K.store keeper.new)) }
    ensures taken { OnOk result (parts.new ≡ parts_spec.taken_first (length parts.old) parts.old) }
    ensures broke { IfErr result (λ error. spec.BreaksParts (map entry_of tables.now) parts.old (K.store keeper.old) (K.store keeper.new) error parts.new) }
    ensures stays { IsSome (K.store keeper.old) → IsSome (K.store keeper.new) }
    ensures cause { KeeperCause (K.faults keeper.old) (K.faults keeper.new) result }
{
    for (i, part) in parts.iter_mut().enumerate() {
        append_rest(alloc, keeper, tables[i].id(), part)?;
    }
    Ok(())
}

// Completes the open window: appends what the tables lack of it, and seals it.
#[tactic(auto, using(crate::proofs::StoreSteps::stays_told))]
fn complete<K: Keeper>(
    alloc: Global,
    keeper: &mut K,
    tables: &[Table],
    begun: &mut Begun,
    head: &WindowHead,
) -> Result<(), KeeperError>
    requires parts { parts_spec.ArePartsOf (map entry_of tables.now) begun.old.parts.items }
    requires apart { IsTrue (are_apart (map entry_of tables.now)) }
    requires head { head.now ≡ head_of begun.old.window }
    requires told { Told (K.store keeper.old) (spec.IsBegunIn true (map entry_of tables.now) begun.old) }
    ensures told { OnOk result (spec.TakesWindow begun.old.window (parts_spec.tables_whole (map entry_of tables.now) begun.old.parts.items) (K.store keeper.old) (K.store keeper.new)) }
    ensures left { spec.IsLeftOf begun.old begun.new }
    ensures all { OnOk result (parts_spec.opened_in begun.new.parts.items ≡ parts_spec.whole_in begun.old.parts.items) }
    ensures broke { IfErr result (λ error. spec.BreaksWindow true (map entry_of tables.now) begun.old (K.store keeper.old) (K.store keeper.new) (record { error = error; begun = Some begun.new })) }
    ensures stays { IsSome (K.store keeper.old) → IsSome (K.store keeper.new) }
    ensures cause { KeeperCause (K.faults keeper.old) (K.faults keeper.new) result }
{
    append_all(alloc, keeper, tables, &mut begun.parts)?;
    keeper.seal(alloc, head)
}

// Opens a window, where it isn't open.
#[tactic(auto, using(crate::proofs::StoreSteps::stays_told))]
fn open<K: Keeper>(
    alloc: Global,
    keeper: &mut K,
    is_open: bool,
    window: &Window,
) -> Result<(), KeeperError>
    requires told { Told (K.store keeper.old) (λ s. s.stage ≡ spec.stage_of is_open window.now) }
    ensures change { Changes (spec.with_open is_open window.now) (K.store keeper.old) (K.store keeper.new) result }
    ensures closed { OnErr result (is_open ≡ false) }
    ensures stays { IsSome (K.store keeper.old) → IsSome (K.store keeper.new) }
    ensures cause { KeeperCause (K.faults keeper.old) (K.faults keeper.new) result }
{
    if is_open {
        return Ok(());
    }
    keeper.put_stage(alloc, window)
}

// Takes the last head away. Takes no memory.
fn forget_last(heads: &mut List<WindowHead>)
    ensures { (before : list_of WindowHead) (head : WindowHead) → heads.old ≡ before ++ head ∷ [] → heads.new ≡ before }
{
    let _last = heads.pop();
}

// How many rows a part has, at most.
#[tactic(auto, using(crate::proofs::Parts::then_count))]
fn part_count(part: &Part) -> Result<u64, Memory>
    ensures { IfOk result (λ most. row_count (parts_spec.whole_part part.now) ≤ most) }
{
    let there = part.opened.count();
    there.checked_add(part.rest.count()).ok_or(Memory)
}

// Makes room for the rows of parts behind those of their tables.
fn reserve_all(tables: &mut [Table], parts: &[Part]) -> Result<(), Memory>
    requires { length parts.now ≡ length tables.old }
    ensures rows { map entry_of tables.new ≡ map entry_of tables.old }
    ensures room { OnOk result (spec.HaveRoom tables.new (parts_spec.whole_in parts.now)) }
{
    for (i, table) in tables.iter_mut().enumerate() {
        let more = part_count(&parts[i])?;
        table.reserve(more)?;
    }
    Ok(())
}

// Takes the first part away; none where there is none. Takes no memory.
fn next_part(parts: &mut Vec<Part>) -> Option<Part>
    ensures some { IfSome result (λ part. parts.old.items ≡ part ∷ parts.new.items) }
    ensures fewer { IfSome result (λ part. length parts.new.items + 1 ≡ length parts.old.items) }
    ensures none { IfNone result (length parts.old.items ≡ 0) }
{
    if parts.is_empty() {
        return None;
    }
    Some(parts.remove(0))
}

// Puts the rows that are there behind those of their tables. Takes no memory.
fn apply_all(tables: &mut [Table], parts: Vec<Part>)
    requires room { spec.HaveRoom tables.old (parts_spec.opened_in parts.items) }
    requires follow { AllZip Follow (map (λ table. (entry_of table).rows) tables.old) (parts_spec.opened_in parts.items) }
    ensures { map entry_of tables.new ≡ parts_spec.tables_there (map entry_of tables.old) parts.items }
{
    let mut parts = parts;
    for table in tables.iter_mut() {
        let Some(part) = next_part(&mut parts) else {
            return;
        };
        table.apply(part.opened);
    }
}

// Makes room for the rows of a window behind those of the tables, puts its head behind the others, and gives it once
// more.
fn make_room(
    alloc: Global,
    tables: &mut [Table],
    heads: &mut List<WindowHead>,
    begun: &Begun,
) -> Result<WindowHead, Memory>
    requires { length begun.now.parts.items ≡ length tables.old }
    ensures rows { map entry_of tables.new ≡ map entry_of tables.old }
    ensures room { OnOk result (spec.HaveRoom tables.new (parts_spec.whole_in begun.now.parts.items)) }
    ensures head { IfOk result (λ head. head ≡ head_of begun.now.window) }
    ensures heads { OnOk result (heads.new ≡ heads.old ++ head_of begun.now.window ∷ []) }
    ensures kept { OnErr result (heads.new ≡ heads.old) }
{
    reserve_all(tables, &begun.parts)?;
    let head = head(alloc, &begun.window)?;
    heads.push(head.copy()?)?;
    Ok(head)
}

// A window that was not opened further than it was.
fn unopened(error: KeeperError, is_open: bool, begun: Begun) -> Untaken
    ensures error { result.error ≡ error }
    ensures open { is_open ≡ true → result.begun ≡ Some begun }
    ensures closed { is_open ≡ false → result.begun ≡ None }
{
    let begun = if is_open { Some(begun) } else { None };
    Untaken { error, begun }
}

impl Vault {
    /// Gives a window to the keeper, and puts its rows behind those of the tables. The keeper has then the
    /// window's rows and its head, and its other tables have the rows that they had. `is_open` says that the window is
    /// open. All memory that the vault needs is taken before the keeper's store changes. With an error the vault is as
    /// before, and the keeper's store is as before, or has the window open and some first tables have got what they
    /// lacked, or has it sealed. After `Memory` it has just what is left of the window; `Failed` comes only where the keeper's
    /// count of faults rose. Condition: the keeper's store, where it is told, has the rows of the tables, and those of
    /// the window that are there.
    pub fn take<K: Keeper>(
        &mut self,
        keeper: &mut K,
        is_open: bool,
        begun: Begun,
    ) -> Result<(), Untaken>
        requires fits { Fits self.old begun }
        requires told { Told (K.store keeper.old) (spec.IsBegunIn is_open self.old.tables begun) }
        ensures taken { OnOk result (self.new ≡ raw_with begun self.old) }
        ensures kept { OnErr result (self.new ≡ self.old) }
        ensures told { OnOk result (spec.TakesWindow begun.window (parts_spec.tables_whole self.old.tables begun.parts.items) (K.store keeper.old) (K.store keeper.new)) }
        ensures broke { IfErr result (spec.BreaksWindow is_open self.old.tables begun (K.store keeper.old) (K.store keeper.new)) }
        ensures stays { IsSome (K.store keeper.old) → IsSome (K.store keeper.new) }
        ensures later { K.faults keeper.old ≤ K.faults keeper.new }
        ensures cause { IfErr result (λ untaken. untaken.error ≡ KeeperError.Failed → Rose (K.faults keeper.old) (K.faults keeper.new)) }
    {
        let alloc = self.heads.allocator();
        // Before the store changes, so that nothing needs memory behind its last call.
        let Ok(head) = make_room(alloc, &mut self.raw.tables, &mut self.heads, &begun) else {
            return Err(unopened(KeeperError::Memory, is_open, begun));
        };
        if let Err(error) = open(alloc, keeper, is_open, &begun.window) {
            forget_last(&mut self.heads);
            return Err(unopened(error, is_open, begun));
        }
        let mut begun = begun;
        if let Err(error) = complete(alloc, keeper, &self.raw.tables, &mut begun, &head) {
            forget_last(&mut self.heads);
            let begun = Some(begun);
            return Err(Untaken { error, begun });
        }
        self.weight = begun.weight;
        apply_all(&mut self.raw.tables, begun.parts);
        Ok(())
    }
}
