// The rows that were taken so far, none of which is another's rival: of one parent and one sub, with
// different attributes.
ghost use Rattle.std.specs.Prelude.{◌≡◌, ◌∷◌, ◌++◌, [], IfOk, None, Some, false, true, position};
ghost use Rattle.std.specs.BTreeMap.{get};
ghost use Rattle.dv_catalog.specs.Records.{are_rivals};
ghost use Rattle.dv_stage.specs.Rivals.{IsFirsts, IsTakenRows, is_named, name_of as spec_name_of};

use dv_text::{Duplicate, Key, List, Memory, NRow, Text};
use std::alloc::Global;
use std::collections::BTreeMap;

// What names a row among those that may not differ: its references and its sub.
#[derive(Debug, PartialEq, Eq, PartialOrd, Ord, Drop)]
pub(crate) struct RowName {
    refs: List<Key>,
    sub: List<Text>,
}

// The rows in the order of their records, and the place of the first row of each name. Rows that are bare
// have no attributes; they have no rivals, and no names are kept.
#[derive(Drop)]
pub(crate) struct TakenRows {
    rows: Vec<NRow>,
    firsts: BTreeMap<RowName, usize>,
    bare: bool,
}

fn name_of(row: &NRow) -> Result<RowName, Memory>
    ensures { IfOk result (λ name. name ≡ record { refs = row.now.refs; sub = row.now.sub }) }
{
    let refs = row.refs.copy()?;
    let sub = row.sub.copy()?;
    Ok(RowName { refs, sub })
}

impl TakenRows {
    pub(crate) fn new(alloc: Global, bare: bool) -> TakenRows
        ensures rows { result.rows.items ≡ [] }
        ensures bare { result.bare ≡ bare }
        ensures taken { IsTakenRows result }
    {
        TakenRows {
            rows: Vec::new(alloc),
            firsts: BTreeMap::new(alloc),
            bare,
        }
    }

    // The first rival of a row with this name among the taken ones, of which `first` is the first with the name.
    fn rival_at(&self, first: usize, row: &NRow) -> Option<usize>
        requires taken { IsTakenRows self.now }
        requires first { position (is_named (spec_name_of row.now)) self.now.rows.items ≡ Some first }
        ensures { result ≡ position (λ other. are_rivals other row.now) self.now.rows.items }
    {
        if self.rows[first].attrs == row.attrs {
            None
        } else {
            Some(first)
        }
    }

    // The place of the first rival of the next row. Where there is none, the row's name is kept.
    fn note(&mut self, row: &NRow) -> Result<Option<usize>, Memory>
        requires taken { IsTakenRows self.old }
        requires bare { self.old.bare ≡ true → row.now.attrs ≡ [] }
        ensures rival { IfOk result (λ rival. rival ≡ position (λ other. are_rivals other row.now) self.old.rows.items) }
        ensures firsts { IfOk result (λ rival. rival ≡ None → self.old.bare ≡ false → IsFirsts self.new.firsts (self.old.rows.items ++ row.now ∷ [])) }
        ensures rows { self.new.rows ≡ self.old.rows }
        ensures bare { self.new.bare ≡ self.old.bare }
    {
        if self.bare {
            return Ok(None);
        }
        let name = name_of(row)?;
        match self.firsts.get(&name).copied() {
            Some(first) => Ok(self.rival_at(first, row)),
            None => {
                self.firsts.insert(name, self.rows.len())?;
                Ok(None)
            }
        }
    }

    // Takes the next row, or answers the place of its first rival.
    pub(crate) fn take(&mut self, row: NRow) -> Result<Option<usize>, Memory>
        requires taken { IsTakenRows self.old }
        requires bare { self.old.bare ≡ true → row.attrs ≡ [] }
        ensures rival { IfOk result (λ rival. rival ≡ position (λ other. are_rivals other row) self.old.rows.items) }
        ensures rows { IfOk result (λ rival. rival ≡ None → self.new.rows.items ≡ self.old.rows.items ++ row ∷ []) }
        ensures taken { IfOk result (λ rival. rival ≡ None → IsTakenRows self.new) }
        ensures bare { IfOk result (λ rival. rival ≡ None → self.new.bare ≡ self.old.bare) }
    {
        match self.note(&row)? {
            Some(rival) => Ok(Some(rival)),
            None => {
                self.rows.push(row)?;
                Ok(None)
            }
        }
    }

    pub(crate) fn into_rows(self) -> Vec<NRow>
        ensures { result.items ≡ self.rows.items }
    {
        self.rows
    }
}
