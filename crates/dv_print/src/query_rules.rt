ghost use Rattle.std.specs.Prelude.{◌≡◌, ◌++◌, IfOk};
ghost use Rattle.dv_catalog.specs.Printed as spec;
ghost use Rattle.dv_print.specs.QueryTexts.{query_text};

use dv_catalog::printed;
use dv_text::{Memory, Stamp, Text};
use std::alloc::Global;

/// The rule that a query breaks.
#[derive(Debug, PartialEq, Eq, Drop)]
pub enum QueryRule {
    /// Q1: the word names no mart of the mapping that is offered.
    UnknownMart { name: Text },
    /// Q2: the date is no stamp.
    BadDate { text: Text },
    /// Q3: some first steps of a path give too many rows.
    TooLarge { path: Text },
    /// Q4: a snapshot is asked later than the last sealed load date, or none is sealed.
    Future { last: Option<Stamp> },
    /// Q5: no snapshot is stored at the date.
    NoSnapshot { date: Stamp },
    /// Q6: no raw table has the name.
    UnknownTable { name: Text },
    /// Q7: the snapshots would weigh too much, or there are as many as there may be.
    SnapshotsFull { weight: u64 },
    /// Q8: no window is open.
    NothingOpen,
}

// A rule's code and name with a value that is printed.
fn named(alloc: Global, front: &[u8], value: &Text) -> Result<Text, Memory>
    ensures { IfOk result (λ text. text ≡ front.now ++ spec.printed value.now) }
{
    let mut text = Vec::from_slice(alloc, front)?;
    let value = printed(alloc, value.bytes())?;
    text.extend_from_slice(value.bytes())?;
    Text::from_vec(text)
}

// A rule's code and name with bytes as they are.
fn with_bytes(alloc: Global, front: &[u8], value: &[u8]) -> Result<Text, Memory>
    ensures { IfOk result (λ text. text ≡ front.now ++ value.now) }
{
    let mut text = Vec::from_slice(alloc, front)?;
    text.extend_from_slice(value)?;
    Text::from_vec(text)
}

fn future(alloc: Global, last: Option<Stamp>) -> Result<Text, Memory>
    ensures { IfOk result (λ text. text ≡ query_text (QueryRule.Future last)) }
{
    match last {
        Some(last) => with_bytes(alloc, b"Q4 Future last=", &last.print()),
        None => with_bytes(alloc, b"Q4 Future last=", b"none"),
    }
}

fn snapshots_full(alloc: Global, weight: u64) -> Result<Text, Memory>
    ensures { IfOk result (λ text. text ≡ query_text (QueryRule.SnapshotsFull weight)) }
{
    let weight = weight.to_string(alloc)?;
    with_bytes(alloc, b"Q7 SnapshotsFull weight=", weight.as_bytes())
}

impl QueryRule {
    /// The rule as it is printed: its code, its name, and its field.
    pub fn printed(&self, alloc: Global) -> Result<Text, Memory>
        ensures { IfOk result (λ text. text ≡ query_text self.now) }
    {
        match self {
            QueryRule::UnknownMart { name } => named(alloc, b"Q1 UnknownMart name=", name),
            QueryRule::BadDate { text } => named(alloc, b"Q2 BadDate text=", text),
            QueryRule::TooLarge { path } => named(alloc, b"Q3 TooLarge path=", path),
            QueryRule::Future { last } => future(alloc, *last),
            QueryRule::NoSnapshot { date } => {
                with_bytes(alloc, b"Q5 NoSnapshot date=", &date.print())
            }
            QueryRule::UnknownTable { name } => named(alloc, b"Q6 UnknownTable name=", name),
            QueryRule::SnapshotsFull { weight } => snapshots_full(alloc, *weight),
            QueryRule::NothingOpen => Text::of(alloc, b"Q8 NothingOpen"),
        }
    }
}
