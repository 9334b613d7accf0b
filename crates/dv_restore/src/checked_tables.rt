// Raw tables of any kind whose rows keep to the rules of form.
ghost use Rattle.std.specs.Prelude.{◌≡◌, ◌+◌, IfErr, IfOk, IsTrue, None};
ghost use Rattle.dv_text.specs.Keys.{hashes_of};
ghost use Rattle.dv_records.specs.Stores.{is_of_kind};
ghost use Rattle.dv_records.specs.Weights.{rows_weight};
ghost use Rattle.dv_store_rules.specs.FormRules as spec;
ghost use Rattle.dv_store_rules.specs.KnownTables.{IsKnown};
ghost use Rattle.dv_store_rules.specs.RowWalks.{TellsFlaw};
ghost use Rattle.dv_store_rules.specs.StoredRows.{flaw_in};
ghost use Rattle.dv_vault.specs.Vaults.{entry_of};

use dv_catalog::TableId;
use dv_records::Rows;
use dv_store_rules::{
    Checked, Fault, Known, checked_effect, checked_hub, checked_link, checked_multi, checked_sat,
    checked_status,
};
use dv_text::KeyDigest;
use dv_vault::Table;

// The table of one kind that a check of its rows makes.
macro_rules! made {
    ($check:ident, $kind:ident { $place:ident }, $known:expr, $rows:expr, $digest:expr) => {{
        let made = $check($known, $place, $rows, $digest)?;
        let table = Table::$kind {
            $place,
            rows: made.table,
        };
        Ok(Checked {
            table,
            weight: made.weight,
        })
    }};
}

/// The table of rows that a keeper gave, and what all tables read so far weigh with it; or the first row that breaks a
/// rule of form. `known` is what was read before the table. Condition: the rows are of the table's kind.
pub(crate) fn checked_table<H: KeyDigest>(
    known: &Known<'_>,
    id: TableId,
    rows: Rows,
    digest: &H,
) -> Result<Checked<Table>, Fault>
    requires { IsTrue (is_of_kind id rows) }
    ensures entry { IfOk result (λ made. entry_of made.table ≡ record { table = id; rows = rows }) }
    ensures weight { IfOk result (λ made. made.weight ≡ known.now.weight + rows_weight rows) }
    ensures clear { (read : spec.Known) → IsKnown (hashes_of H.function) H.function.width known.now read → IfOk result (λ made. flaw_in read id rows ≡ None) }
    ensures flawed { (read : spec.Known) → IsKnown (hashes_of H.function) H.function.width known.now read → IfErr result (λ fault. TellsFlaw fault (flaw_in read id rows)) }
{
    match (id, rows) {
        (TableId::Hub(hub), Rows::Hubs(rows)) => {
            made!(checked_hub, Hub { hub }, known, rows, digest)
        }
        (TableId::Link(link), Rows::Links(rows)) => {
            made!(checked_link, Link { link }, known, rows, digest)
        }
        (TableId::Sat(feed), Rows::Sats(rows)) => {
            made!(checked_sat, Sat { feed }, known, rows, digest)
        }
        (TableId::Multi(feed), Rows::Multis(rows)) => {
            made!(checked_multi, Multi { feed }, known, rows, digest)
        }
        (TableId::Status(feed), Rows::Statuses(rows)) => {
            made!(checked_status, Status { feed }, known, rows, digest)
        }
        (TableId::Effect(feed), Rows::Effects(rows)) => {
            made!(checked_effect, Effect { feed }, known, rows, digest)
        }
        _ => unreachable!(),
    }
}
