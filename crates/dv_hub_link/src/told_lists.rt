// The reference lists that rows stand for.
ghost use Rattle.std.specs.Prelude.{◌≡◌, IfOk, List as list_of, map};
ghost use Rattle.std.specs.List.{zip};
ghost use Rattle.std.specs.Option.{option_map};
ghost use Rattle.dv_text.specs.declared.rows.Key as key;
ghost use Rattle.dv_text.specs.Keys.{refs_eq};
ghost use Rattle.dv_hub_link.specs.HeldLists as spec;

use crate::hashed_lists::LentList;
use crate::holds_lists::{HoldsLists, Standing};
use crate::key_rows::KeyRows;
use dv_index::Placed;
use dv_text::{Digest, Key, List, Memory};
use std::alloc::Global;

/// What tells the reference list that a row stands for.
pub(crate) trait TellsLists<R> {
    ghost list: { Self → R → list_of key.Key };

    /// Whether a row stands for this list. Takes no memory.
    fn stands_for(&self, row: &R, refs: &[Key]) -> bool
        ensures { result ≡ refs_eq (list self.now row.now) refs.now };

    /// The list that a row stands for.
    fn told(&self, alloc: Global, row: &R) -> Result<List<Key>, Memory>
        ensures { IfOk result (λ refs. refs ≡ list self.now row.now) };
}

/// Rows with what tells the lists that they stand for.
#[derive(Drop)]
pub(crate) struct ToldRows<'a, R: Placed, L: TellsLists<R>> {
    pub(crate) rows: &'a KeyRows<R>,
    pub(crate) lists: &'a L,
}

// The hash keys of lists.
fn digests_of(alloc: Global, lists: &[LentList]) -> Result<Vec<Digest>, Memory>
    ensures { IfOk result (λ made. made.items ≡ map (λ list. list.digest) lists.now) }
{
    let mut digests = Vec::with_capacity(alloc, lists.len())?;
    for list in lists {
        digests.push(list.digest)?;
    }
    Ok(digests)
}

// How a list stands to the row that is found under its hash key.
fn beside<R, L: TellsLists<R>>(lists: &L, refs: &[Key], found: Option<&R>) -> Standing
    ensures { result ≡ spec.beside refs.now (option_map (λ row. L.list lists.now row.now) found.entry) }
{
    match found {
        None => Standing::New,
        Some(row) => {
            if lists.stands_for(row, refs) {
                Standing::Held
            } else {
                Standing::Other
            }
        }
    }
}

// The same of each list and the row beside it.
fn all_beside<R, L: TellsLists<R>>(
    alloc: Global,
    told: &L,
    lists: &[LentList],
    found: &[Option<&R>],
) -> Result<Vec<Standing>, Memory>
    ensures { IfOk result (λ made. made.items ≡ map (λ (list, row). spec.beside list.refs.now (option_map (λ row. L.list told.now row.now) row)) (zip lists.now found.now)) }
{
    let mut made = Vec::with_capacity(alloc, lists.len())?;
    for (list, row) in lists.iter().zip(found) {
        made.push(beside(told, list.refs, *row))?;
    }
    Ok(made)
}

impl<'a, R: Placed, L: TellsLists<R>> HoldsLists for ToldRows<'a, R, L> {
    ghost use Rattle.dv_hub_link.specs.KeyDeltas.{lists_of};

    ghost held = { λ t. lists_of R.place (L.list t.lists.now) t.rows.now.rows };

    fn standings(&self, alloc: Global, lists: &[LentList<'_>]) -> Result<Vec<Standing>, Memory> {
        let digests = digests_of(alloc, lists)?;
        let found = self.rows.rows_of(&digests)?;
        let made = all_beside(alloc, self.lists, lists, &found)?;
        Ok(made)
    }

    fn list(&self, alloc: Global, d: &Digest) -> Result<Option<List<Key>>, Memory> {
        let Some(row) = self.rows.row(d) else {
            return Ok(None);
        };
        let refs = self.lists.told(alloc, row)?;
        Ok(Some(refs))
    }
}
