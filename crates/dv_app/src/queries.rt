// The commands `mart`, `table` and `windows`: texts of what is kept, which they leave as it is.
ghost use Rattle.std.specs.Prelude.{◌≡◌, Contains, IfErr, IfOk, Some};
ghost use Rattle.std.specs.Option.{option_map};
ghost use Rattle.dv_catalog.specs.Tables.{tables};
ghost use Rattle.dv_records.specs.States.{head_of};
ghost use Rattle.dv_window.specs.Offices.{staged};
ghost use Rattle.dv_mart.specs.OfferedMarts.{IsOffered};
ghost use Rattle.dv_mart.specs.Whats.{offered_mart, table_named, what_of};
ghost use Rattle.dv_given.specs.Endings.{QueryEnds};
ghost use Rattle.dv_app.specs.Loadings.{WhatEnds};
ghost use Rattle.dv_app.specs.Queries as spec;
ghost use Rattle.dv_app.specs.Queries.{IsAnswered, MartEnds, TableEnds};
ghost use Rattle.dv_app.specs.Words as words;

use crate::replies::Reply;
use crate::texts::text_of;
use dv_catalog::{Catalog, TableId};
use dv_given::{Ending, check_date};
use dv_mart::{What, whole_table_text};
use dv_print::{QueryRule, windows_text};
use dv_text::{Duplicate, Memory, Text, WindowHead};
use dv_vault::head;
use dv_window::Office;
use std::alloc::Global;

/// How a command ends that asks for a mart, or for a stored table, by a name that nothing has.
pub(crate) fn unknown_mart(name: &Text) -> Ending
    ensures { QueryEnds (λ rule. rule ≡ QueryRule.UnknownMart name.now) result }
{
    match name.copy() {
        Ok(name) => Ending::BadQuery(QueryRule::UnknownMart { name }),
        Err(Memory) => Ending::Memory,
    }
}

/// The mart or the table that a word names.
pub(crate) fn check_what(alloc: Global, catalog: &Catalog, word: &Text) -> Result<What, Ending>
    ensures ok { IfOk result (λ what. what_of catalog.now word.now ≡ Some what) }
    ensures ends { IfErr result (WhatEnds catalog.now word.now) }
{
    match What::read(alloc, catalog, word)? {
        Some(what) => Ok(what),
        None => Err(unknown_mart(word)),
    }
}

// The mart that a word names.
fn check_mart(alloc: Global, catalog: &Catalog, word: &Text) -> Result<What, Ending>
    ensures ok { IfOk result (λ what. offered_mart catalog.now word.now ≡ Some what) }
    ensures offered { IfOk result (IsOffered catalog.now) }
    ensures ends { IfErr result (MartEnds catalog.now word.now) }
{
    match What::read_mart(alloc, catalog, word)? {
        Some(what) => Ok(what),
        None => Err(unknown_mart(word)),
    }
}

// The raw table with a name.
fn check_table(catalog: &Catalog, name: &Text) -> Result<TableId, Ending>
    ensures ok { IfOk result (λ table. table_named catalog.now name.now ≡ Some table) }
    ensures there { IfOk result (Contains (tables catalog.now)) }
    ensures ends { IfErr result (TableEnds catalog.now name.now) }
{
    match catalog.find_table(name)? {
        Some(table) => Ok(table),
        None => {
            let name = name.copy()?;
            Err(Ending::BadQuery(QueryRule::UnknownTable { name }))
        }
    }
}

/// The text of a mart of the office's sealed windows.
pub(crate) fn mart_of(
    alloc: Global,
    office: &Office,
    what: &Text,
    date: &Text,
) -> Result<Text, Ending>
    ensures { IsAnswered (words.Mart what.now date.now) office.now result }
{
    let what = check_mart(alloc, office.catalog(), what)?;
    let date = check_date(date)?;
    text_of(alloc, office.vault(), &what, date)
}

/// The text of a raw table with all rows that the office's keeper has.
pub(crate) fn table_of(alloc: Global, office: &Office, name: &Text) -> Result<Text, Ending>
    ensures { IsAnswered (words.Table name.now) office.now result }
{
    let table = check_table(office.catalog(), name)?;
    Ok(whole_table_text(alloc, office.vault(), table, office.rows_begun(table))?)
}

// The head of the open window.
fn open_head(alloc: Global, office: &Office) -> Result<Option<WindowHead>, Memory>
    ensures { IfOk result (λ head. head ≡ option_map head_of (staged office.now)) }
{
    match office.staged() {
        Some(window) => Ok(Some(head(alloc, window)?)),
        None => Ok(None),
    }
}

/// The text of the office's windows.
pub(crate) fn windows_of(alloc: Global, office: &Office) -> Result<Text, Ending>
    ensures { IsAnswered words.Windows office.now result }
{
    let head = open_head(alloc, office)?;
    Ok(windows_text(
        alloc,
        office.catalog(),
        office.heads().items(),
        head.as_ref(),
    )?)
}

/// The reply of a text.
pub(crate) fn text_reply(text: Result<Text, Ending>) -> Result<Reply, Ending>
    ensures { result ≡ spec.text_reply text }
{
    match text {
        Ok(text) => Ok(Reply::Text(text)),
        Err(ending) => Err(ending),
    }
}
