// A window that is open, or is to be opened: what tables have of it, and what they lack.
ghost use Rattle.std.specs.Prelude.{◌≡◌, ◌+◌, ◌∷◌, IfNone, IfOk, IfSome, length, sum_by};
ghost use Rattle.dv_records.specs.Stores.{row_count};
ghost use Rattle.dv_vault.specs.Additions.{opened_in, rest_in};

use crate::batches::count_all;
use dv_records::Rows;
use dv_text::{List, Memory, Window};
use std::alloc::Global;

/// The rows of a window that a raw table has, and those that it lacks.
#[derive(Drop)]
pub struct Part {
    pub opened: Rows,
    pub rest: Rows,
}

/// A window that is open, or is to be opened: its part in each table, in table order, how many rows it has in all of
/// them, and what the vault weighs with them.
#[derive(Drop)]
pub struct Begun {
    pub window: Window,
    pub parts: Vec<Part>,
    pub rows: u64,
    pub weight: u64,
}

// Takes the first rows away; none where there are none. Takes no memory.
fn next_rows(batches: &mut List<Rows>) -> Option<Rows>
    ensures some { IfSome result (λ rows. batches.old ≡ rows ∷ batches.new) }
    ensures none { IfNone result (length batches.old ≡ 0) }
{
    if batches.items().is_empty() {
        return None;
    }
    Some(batches.remove(0))
}

// The parts of tables that have these rows of a window, and lack those.
fn in_parts(alloc: Global, opened: List<Rows>, rest: List<Rows>) -> Result<Vec<Part>, Memory>
    requires { length opened ≡ length rest }
    ensures opened { IfOk result (λ parts. opened_in parts.items ≡ opened) }
    ensures rest { IfOk result (λ parts. rest_in parts.items ≡ rest) }
{
    let mut rest = rest;
    let mut parts = Vec::new(alloc);
    for opened in opened.into_vec()? {
        let Some(rest) = next_rows(&mut rest) else {
            return Err(Memory);
        };
        parts.push(Part { opened, rest })?;
    }
    Ok(parts)
}

impl Begun {
    /// A window of which tables have these rows, and lack those, with which the vault weighs so much. Condition: they are
    /// as many.
    pub fn of(
        alloc: Global,
        window: Window,
        opened: List<Rows>,
        rest: List<Rows>,
        weight: u64,
    ) -> Result<Begun, Memory>
        requires { length opened ≡ length rest }
        ensures window { IfOk result (λ begun. begun.window ≡ window) }
        ensures opened { IfOk result (λ begun. opened_in begun.parts.items ≡ opened) }
        ensures rest { IfOk result (λ begun. rest_in begun.parts.items ≡ rest) }
        ensures rows { IfOk result (λ begun. begun.rows ≡ sum_by row_count opened + sum_by row_count rest) }
        ensures weight { IfOk result (λ begun. begun.weight ≡ weight) }
    {
        let there = count_all(opened.items())?;
        let rows = there.checked_add(count_all(rest.items())?).ok_or(Memory)?;
        let parts = in_parts(alloc, opened, rest)?;
        Ok(Begun {
            window,
            parts,
            rows,
            weight,
        })
    }
}
