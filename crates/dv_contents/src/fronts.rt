// The rows of a content in order. A comparison of two rows follows pointers to their keys, and most are told apart by
// the first bytes of the first key: these stand beside each row while it is sorted.
ghost use Rattle.std.specs.Prelude.{◌≡◌, IfOk};
ghost use Rattle.dv_text.specs.Orders.{row_cmp};
ghost use Rattle.dv_text.specs.Sorting.{sorted_by};

use crate::content_rows::ContentRow;
use dv_records::{Ranked, sorted_firsts};
use dv_text::{List, Memory};
use std::alloc::Global;
use std::cmp::Ordering;
use std::marker::Model;

// A lent row behind the number of its first key. Contracts see it as the row.
#[derive(Drop)]
struct Front<'a, 'b> {
    prefix: u128,
    row: &'b ContentRow<'a>,
}

impl<'a, 'b> Model for Front<'a, 'b> {
    ghost use Rattle.std.specs.Prelude.{◌≡◌};
    ghost use Rattle.dv_text.specs.Prefixes.{row_prefix};
    ghost use Rattle.dv_text.specs.declared.rows.NRow.{NRow};

    ghost Value = { NRow };

    ghost view = { λ front. front.row.now };

    ghost invariant = { λ front. front.prefix ≡ row_prefix front.row.now };
}

impl<'a, 'b> Front<'a, 'b> {
    // A row behind its number.
    fn of(row: &'b ContentRow<'a>) -> Front<'a, 'b>
        ensures { result ≡ row.now }
    {
        Front {
            prefix: row.prefix(),
            row,
        }
    }

    // The row itself, lent once more.
    fn lent(&self) -> Result<ContentRow<'a>, Memory>
        ensures { IfOk result (λ row. row ≡ self.now) }
    {
        self.row.lent()
    }
}

impl<'a, 'b> Ranked for Front<'a, 'b> {
    ghost use Rattle.dv_text.specs.Orders.{row_cmp};
    ghost use Rattle.dv_text.proofs.Deciding.{row_total};

    ghost rank_cmp = { row_cmp };

    fn compared(&self, other: &Front<'a, 'b>) -> Ordering {
        match self.prefix.cmp(&other.prefix) {
            Ordering::Less => Ordering::Less,
            Ordering::Equal => self.row.compared(other.row),
            Ordering::Greater => Ordering::Greater,
        }
    }

    ghost total = { row_total };
}

// The rows, each behind its number.
fn fronts<'a, 'b>(alloc: Global, rows: &'b [ContentRow<'a>]) -> Result<Vec<Front<'a, 'b>>, Memory>
    ensures { IfOk result (λ made. made.items ≡ rows.now) }
{
    let mut made = Vec::with_capacity(alloc, rows.len())?;
    for row in rows {
        made.push(Front::of(row))?;
    }
    Ok(made)
}

// The rows alone, lent once more.
fn lent_rows<'a>(alloc: Global, fronts: &[Front<'a, '_>]) -> Result<List<ContentRow<'a>>, Memory>
    ensures { IfOk result (λ made. made ≡ fronts.now) }
{
    let mut made = List::with_room(alloc, fronts.len())?;
    for front in fronts {
        made.push(front.lent()?)?;
    }
    Ok(made)
}

/// The rows in their order, each once.
pub(crate) fn sorted_rows<'a>(
    alloc: Global,
    rows: &[ContentRow<'a>],
) -> Result<List<ContentRow<'a>>, Memory>
    ensures { IfOk result (λ made. made ≡ sorted_by row_cmp rows.now) }
{
    let fronts = fronts(alloc, rows)?;
    let sorted = sorted_firsts(fronts)?;
    let made = lent_rows(alloc, sorted.items())?;
    Ok(made)
}
