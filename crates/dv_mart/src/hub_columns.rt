//! The rows of a hub's feeds side by side: of each feed the row of each key, found in one walk over its content.

ghost use Rattle.std.specs.Prelude.{◌≡◌, ◌∷◌, ◌++◌, [], ◌<◌, find, length, map, not, option_map, position, replicate, IfOk, IfSome, OnOk};
ghost use Rattle.std.specs.List.{flat_map};
ghost use Rattle.std.specs.List.Sorted.{IsStrictlySortedBy};
ghost use Rattle.std.specs.Ordering.{is_lt};
ghost use Rattle.dv_text.specs.Keys.{refs_eq};
ghost use Rattle.dv_text.specs.Orders.{key_cmp, refs_cmp, row_cmp};
ghost use Rattle.dv_mart.specs.HubContents as spec;
ghost use Rattle.dv_print.specs.Texts as texts;

use crate::hub_contents::FeedRows;
use crate::lent_keys::LentKey;
use dv_catalog::FeedDef;
use dv_contents::ContentRow;
use dv_print::{Fields, HubFeed};
use dv_records::HubCell;
use dv_text::{Duplicate, List, Memory, Text};
use std::alloc::Global;
use std::cmp::Ordering;

/// A feed of a hub, and for each key of a list the row that the feed has of it.
#[derive(Drop)]
pub(crate) struct HubColumn<'a, 'b> {
    feed: HubFeed<'a>,
    found: Vec<Option<&'b ContentRow<'a>>>,
}

// How a row's references stand to a key.
fn compared(row: &ContentRow<'_>, key: &LentKey<'_>) -> Ordering
    ensures { result ≡ refs_cmp row.now.refs (key.now ∷ []) }
{
    let refs = [key.key()];
    row.refs().cmp(&&refs[..])
}

// The place of the first row that is not of a lesser key.
fn place_not_before(rows: &[ContentRow<'_>], key: &LentKey<'_>) -> Option<usize>
    ensures place { result ≡ position (λ row. not (is_lt (refs_cmp row.refs (key.now ∷ [])))) rows.now }
    ensures within { IfSome result (λ place. place < length rows.now) }
{
    rows.iter().position(|row| !compared(row, key).is_lt())
}

// The rows without those at the beginning that are of a lesser key.
fn not_before<'a, 'b>(rows: &'b [ContentRow<'a>], key: &LentKey<'_>) -> &'b [ContentRow<'a>]
    ensures { result.now ≡ spec.not_before key.now rows.now }
{
    match place_not_before(rows, key) {
        Some(place) => &rows[place..],
        None => &[],
    }
}

// The first row, if it is of a key.
fn first_of<'a, 'b>(rows: &'b [ContentRow<'a>], key: &LentKey<'_>) -> Option<&'b ContentRow<'a>>
    ensures { option_map (λ row. row.now) result ≡ spec.first_of key.now rows.now }
{
    let row = rows.first()?;
    if compared(row, key).is_eq() {
        Some(row)
    } else {
        None
    }
}

// Of each key the row of its rows, which stand in order as the keys do: none where it has none.
fn rows_beside<'a, 'b>(
    alloc: Global,
    rows: &'b [ContentRow<'a>],
    keys: &[LentKey<'_>],
) -> Result<Vec<Option<&'b ContentRow<'a>>>, Memory>
    requires rows { IsStrictlySortedBy row_cmp rows.now }
    requires keys { IsStrictlySortedBy key_cmp keys.now }
    ensures { IfOk result (λ found. map (option_map (λ row. row.now)) found.items ≡ map (λ key. find (λ row. refs_eq row.refs (key ∷ [])) rows.now) keys.now) }
{
    let mut found = Vec::with_capacity(alloc, keys.len())?;
    let mut rest = rows;
    for key in keys {
        rest = not_before(rest, key);
        found.push(first_of(rest, key))?;
    }
    Ok(found)
}

/// A column for each content.
pub(crate) fn columns_of<'a, 'b>(
    alloc: Global,
    contents: &'b [FeedRows<'a>],
    keys: &[LentKey<'_>],
) -> Result<Vec<HubColumn<'a, 'b>>, Memory>
    requires contents { spec.AreInOrder contents.now }
    requires keys { IsStrictlySortedBy key_cmp keys.now }
    ensures { IfOk result (λ columns. map spec.column_told columns.items ≡ map (spec.column_of keys.now) contents.now) }
{
    let mut columns = Vec::with_capacity(alloc, contents.len())?;
    for one in contents {
        let found = rows_beside(alloc, one.rows.items(), keys)?;
        columns.push(HubColumn {
            feed: one.feed,
            found,
        })?;
    }
    Ok(columns)
}

// So many blanks.
fn blanks(alloc: Global, count: usize) -> Result<List<Text>, Memory>
    ensures { IfOk result (λ made. made ≡ replicate count []) }
{
    let mut made = List::with_room(alloc, count)?;
    for _ in 0..count {
        made.push(Text::empty())?;
    }
    Ok(made)
}

// Copies of texts.
fn copied(alloc: Global, texts: &[Text]) -> Result<List<Text>, Memory>
    ensures { IfOk result (λ made. made ≡ texts.now) }
{
    let mut made = List::with_room(alloc, texts.len())?;
    for text in texts {
        made.push(text.copy()?)?;
    }
    Ok(made)
}

// A row's attributes; as many blanks where there is no row. Of a feed with a sub nothing, since it may have several rows.
fn shown_attrs(
    alloc: Global,
    feed: &FeedDef,
    row: Option<&ContentRow<'_>>,
) -> Result<List<Text>, Memory>
    ensures { IfOk result (λ attrs. attrs ≡ spec.shown_attrs feed.now (option_map (λ row. row.now) row.entry)) }
{
    if !feed.sub.items().is_empty() {
        return Ok(List::new(alloc));
    }
    match row {
        Some(row) => copied(alloc, row.attrs()),
        None => blanks(alloc, feed.attrs.items().len()),
    }
}

// Puts the same at the end of fields.
fn push_attrs(
    fields: &mut Fields,
    feed: &FeedDef,
    row: Option<&ContentRow<'_>>,
) -> Result<(), Memory>
    ensures { OnOk result (fields.new ≡ fields.old ++ spec.shown_attrs feed.now (option_map (λ row. row.now) row.entry)) }
{
    if !feed.sub.items().is_empty() {
        return Ok(());
    }
    match row {
        Some(row) => fields.push_texts(row.attrs()),
        None => fields.push_blanks(feed.attrs.items().len()),
    }
}

impl<'a, 'b> HubColumn<'a, 'b> {
    // The row at a place; none where there is none.
    fn row(&self, place: usize) -> Option<&'b ContentRow<'a>>
        ensures { option_map (λ row. row.now) result ≡ spec.row_at place self.now }
    {
        let row = self.found.get(place)?;
        *row
    }

    // The cell at a place.
    fn cell(&self, alloc: Global, place: usize) -> Result<HubCell, Memory>
        ensures { IfOk result (λ cell. cell ≡ spec.cell_at place self.now) }
    {
        let row = self.row(place);
        let attrs = shown_attrs(alloc, self.feed.definition, row)?;
        Ok(HubCell {
            present: row.is_some(),
            attrs,
        })
    }

    // Puts the fields of the cell at a place at the end.
    fn push_cell(&self, fields: &mut Fields, place: usize) -> Result<(), Memory>
        ensures { OnOk result (fields.new ≡ fields.old ++ texts.yes_or_no (spec.cell_at place self.now).present ∷ (spec.cell_at place self.now).attrs) }
    {
        let row = self.row(place);
        fields.push_yes_or_no(row.is_some())?;
        push_attrs(fields, self.feed.definition, row)
    }
}

/// The cells of columns at a place.
pub(crate) fn cells_at(
    alloc: Global,
    columns: &[HubColumn<'_, '_>],
    place: usize,
) -> Result<List<HubCell>, Memory>
    ensures { IfOk result (λ cells. cells ≡ map (spec.cell_at place) columns.now) }
{
    let mut cells = List::with_room(alloc, columns.len())?;
    for column in columns {
        cells.push(column.cell(alloc, place)?)?;
    }
    Ok(cells)
}

/// Puts the fields of the cells at a place at the end.
pub(crate) fn push_cells(
    fields: &mut Fields,
    columns: &[HubColumn<'_, '_>],
    place: usize,
) -> Result<(), Memory>
    ensures { OnOk result (fields.new ≡ fields.old ++ flat_map (λ cell. texts.yes_or_no cell.present ∷ cell.attrs) (map (spec.cell_at place) columns.now)) }
{
    for column in columns {
        column.push_cell(fields, place)?;
    }
    Ok(())
}
