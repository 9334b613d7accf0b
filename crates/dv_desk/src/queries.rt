// What is asked for and only read of an office that isn't stale.
ghost use Rattle.std.specs.Prelude.{◌≡◌, ◌<◌, Contains, IfOk, IfSome, length};
ghost use Rattle.dv_catalog.specs.Tables.{tables};
ghost use Rattle.dv_mart.specs.OfferedMarts.{IsOffered};
ghost use Rattle.dv_mart.specs.Whats.{hub_place, table_named as table_of_name};
ghost use Rattle.dv_window.specs.Offices.{staged};
ghost use Rattle.dv_desk.specs.Queries as spec;
ghost use Rattle.dv_desk.specs.Reads.{Looked, LookedBy, answer_of_stored, bad_date as bad_date_of, mart_due, or_memory as or_memory_of};
ghost use Rattle.dv_desk.specs.Routes.{Heads, MartAt, TableOf};

use crate::answers::Answer;
use crate::bodies::heads_body;
use dv_catalog::{Catalog, TableId};
use dv_mart::{MartFault, What, mart_text, too_large, whole_table_text};
use dv_print::QueryRule;
use dv_text::{Memory, Stamp, Text};
use dv_window::{Office, StoredFault};
use std::alloc::Global;

/// What was answered, or that memory ran out.
pub(crate) fn or_memory(answered: Result<Answer, Memory>) -> Answer
    ensures { result ≡ or_memory_of answered }
{
    match answered {
        Ok(answer) => answer,
        Err(Memory) => Answer::Memory,
    }
}

/// The answer where a date is no stamp.
pub(crate) fn bad_date(alloc: Global, date: &[u8]) -> Result<Answer, Memory>
    ensures { IfOk result (λ answer. answer ≡ bad_date_of date.now) }
{
    let text = Text::of(alloc, date)?;
    Ok(Answer::BadQuery(QueryRule::BadDate { text }))
}

// The load date of the open window.
fn begun_load(office: &Office) -> Option<Stamp>
    ensures { result ≡ spec.begun_load (staged office.now) }
{
    let window = office.staged()?;
    Some(window.load)
}

/// The heads of the sealed windows, and the load date of the open one.
pub(crate) fn heads(alloc: Global, office: &Office) -> Result<Answer, Memory>
    ensures { IfOk result (Looked Heads office.now) }
{
    let sealed = office.heads().items();
    let text = heads_body(alloc, office.catalog(), sealed, begun_load(office))?;
    Ok(Answer::Heads(text))
}

// The text of a mart at a date, or the rule that keeps it back.
fn mart_at(alloc: Global, office: &Office, what: &What, date: Stamp) -> Result<Answer, Memory>
    requires { IsOffered office.now.vault.mapping what.now }
    ensures { IfOk result (LookedBy (mart_due what.now date office.now) office.now) }
{
    match mart_text(alloc, office.vault(), what, date) {
        Ok(text) => Ok(Answer::Rows(text)),
        Err(MartFault::TooLarge) => {
            let rule = too_large(alloc, office.catalog(), what)?;
            Ok(Answer::BadQuery(rule))
        }
        Err(MartFault::Memory) => Err(Memory),
    }
}

/// The mart of a word over the sealed windows, at a date.
pub(crate) fn mart(
    alloc: Global,
    office: &Office,
    word: &[u8],
    date: &[u8],
) -> Result<Answer, Memory>
    ensures { IfOk result (Looked (MartAt word.now date.now) office.now) }
{
    let word = Text::of(alloc, word)?;
    let Some(what) = What::read_mart(alloc, office.catalog(), &word)? else {
        return Ok(Answer::NotFound);
    };
    match Stamp::read(date) {
        Some(at) => mart_at(alloc, office, &what, at),
        None => bad_date(alloc, date),
    }
}

// The raw table of a name.
fn table_named(alloc: Global, catalog: &Catalog, name: &[u8]) -> Result<Option<TableId>, Memory>
    ensures named { IfOk result (λ table. table ≡ table_of_name catalog.now name.now) }
    ensures there { IfOk result (λ table. IfSome table (Contains (tables catalog.now))) }
{
    let name = Text::of(alloc, name)?;
    catalog.find_table(&name)
}

/// The raw table of a name, with all its rows.
pub(crate) fn table(alloc: Global, office: &Office, name: &[u8]) -> Result<Answer, Memory>
    ensures { IfOk result (Looked (TableOf name.now) office.now) }
{
    let Some(table) = table_named(alloc, office.catalog(), name)? else {
        return Ok(Answer::NotFound);
    };
    let text = whole_table_text(alloc, office.vault(), table, office.rows_begun(table))?;
    Ok(Answer::Rows(text))
}

/// The place of the hub of a name.
pub(crate) fn hub_named(
    alloc: Global,
    catalog: &Catalog,
    name: &[u8],
) -> Result<Option<u32>, Memory>
    ensures named { IfOk result (λ hub. hub ≡ hub_place catalog.now name.now) }
    ensures there { IfOk result (λ hub. IfSome hub (λ n. n < length catalog.now.hubs)) }
{
    let name = Text::of(alloc, name)?;
    Ok(catalog.find_hub(&name))
}

/// The answer by the text of a stored table, or by why there is none.
pub(crate) fn stored_answer(text: Result<Text, StoredFault>) -> Answer
    ensures { result ≡ answer_of_stored text }
{
    match text {
        Ok(text) => Answer::Rows(text),
        Err(StoredFault::NoSnapshot) => Answer::NotFound,
        Err(StoredFault::Damaged(damage)) => Answer::Damaged(damage),
        Err(StoredFault::KeeperFault) => Answer::Keeper,
        Err(StoredFault::Memory) => Answer::Memory,
    }
}
