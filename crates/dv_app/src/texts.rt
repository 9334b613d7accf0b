// The text of what is asked for.
ghost use Rattle.std.specs.Prelude.{◌≡◌, IfOk, IfErr};
ghost use Rattle.dv_mart.specs.MartTexts.{path_name};
ghost use Rattle.dv_mart.specs.OfferedMarts.{IsOffered};
ghost use Rattle.dv_print.specs.declared.query_rules.QueryRule.TheVariants as rules;
ghost use Rattle.dv_app.specs.Texts.{IsTextOf, TextEnds};
ghost use Rattle.dv_given.specs.Endings.{QueryEnds};

use dv_catalog::Catalog;
use dv_given::Ending;
use dv_mart::{MartFault, What, mart_text, too_large};
use dv_text::{Memory, Stamp, Text};
use dv_vault::Vault;
use std::alloc::Global;

// The end where what is asked for is of a path that is too large.
fn end_too_large(alloc: Global, catalog: &Catalog, what: &What) -> Ending
    ensures { QueryEnds (λ rule. rule ≡ rules.TooLarge (path_name catalog.now what.now)) result }
{
    match too_large(alloc, catalog, what) {
        Ok(rule) => Ending::BadQuery(rule),
        Err(Memory) => Ending::Memory,
    }
}

/// The text of what is asked for, over the sealed windows of a vault.
pub(crate) fn text_of(
    alloc: Global,
    vault: &Vault,
    what: &What,
    date: Stamp,
) -> Result<Text, Ending>
    requires { IsOffered vault.now.mapping what.now }
    ensures ok { IfOk result (IsTextOf vault.now what.now date) }
    ensures ends { IfErr result (TextEnds vault.now what.now date) }
{
    match mart_text(alloc, vault, what, date) {
        Ok(text) => Ok(text),
        Err(MartFault::TooLarge) => Err(end_too_large(alloc, vault.catalog(), what)),
        Err(MartFault::Memory) => Err(Ending::Memory),
    }
}
