//! The printed form of the rule that a window breaks.

ghost use Rattle.std.specs.Prelude.{◌≡◌, ◌∷◌, ◌++◌, [], IfOk, OnOk, map};
ghost use Rattle.std.specs.Fmt.{decimal};
ghost use Rattle.std.specs.List.{join_with_byte};
ghost use Rattle.dv_catalog.specs.Printed as printed_spec;
ghost use Rattle.dv_catalog.specs.Printed.{printed_field};
ghost use Rattle.dv_catalog.specs.RuleTexts as spec;
ghost use Rattle.dv_text.specs.Stamps.{stamp_text};

use crate::printing::{add_field, printed};
use crate::rules::Rule;
use dv_text::{Key, List, Memory, Stamp, Text};
use std::alloc::Global;

// Puts a field of which the value is printed as it is at the end of a line.
fn add_bytes(line: &mut Vec<u8>, name: &[u8], value: &[u8]) -> Result<(), Memory>
    ensures { OnOk result (line.new.items ≡ line.old.items ++ spec.field_text name.now value.now) }
{
    line.push(b' ')?;
    line.extend_from_slice(name)?;
    line.push(b'=')?;
    line.extend_from_slice(value)?;
    Ok(())
}

// Puts a field with a number at the end of a line.
fn add_number(alloc: Global, line: &mut Vec<u8>, name: &[u8], value: u64) -> Result<(), Memory>
    ensures { OnOk result (line.new.items ≡ line.old.items ++ spec.field_text name.now (decimal value)) }
{
    let value = value.to_string(alloc)?;
    add_bytes(line, name, value.as_bytes())
}

// Puts a part of a key at the end of a line, in square brackets.
fn add_part(alloc: Global, line: &mut Vec<u8>, part: &Text) -> Result<(), Memory>
    ensures { OnOk result (line.new.items ≡ line.old.items ++ 91 ∷ printed_spec.printed part.now ++ 93 ∷ []) }
{
    let part = printed(alloc, part.bytes())?;
    line.push(b'[')?;
    line.extend_from_slice(part.bytes())?;
    line.push(b']')?;
    Ok(())
}

// A key as it is printed.
fn key_shown(alloc: Global, key: &Key) -> Result<Text, Memory>
    ensures { IfOk result (λ text. text ≡ spec.key_shown key.now) }
{
    let mut shown = Vec::new(alloc);
    for part in key.parts.items() {
        add_part(alloc, &mut shown, part)?;
    }
    Text::from_vec(shown)
}

// The keys of a reference list as they are printed.
fn keys_shown(alloc: Global, keys: &[Key]) -> Result<List<Text>, Memory>
    ensures { IfOk result (λ texts. texts ≡ map spec.key_shown keys.now) }
{
    let mut shown = List::new(alloc);
    for key in keys {
        shown.push(key_shown(alloc, key)?)?;
    }
    Ok(shown)
}

// Texts with a slash between each and the next.
#[tactic(auto, using(dv_text::proofs::Joins::join_more))]
fn parted(alloc: Global, texts: &[Text]) -> Result<Text, Memory>
    ensures { IfOk result (λ made. made ≡ join_with_byte 47 texts.now) }
{
    let Some((first, rest)) = texts.split_first() else {
        return Ok(Text::empty());
    };
    let mut made = Vec::from_slice(alloc, first.bytes())?;
    for text in rest {
        made.push(b'/')?;
        made.extend_from_slice(text.bytes())?;
    }
    Text::from_vec(made)
}

// Puts a field with a reference list at the end of a line.
fn add_refs(alloc: Global, line: &mut Vec<u8>, name: &[u8], refs: &List<Key>) -> Result<(), Memory>
    ensures { OnOk result (line.new.items ≡ line.old.items ++ spec.field_text name.now (spec.refs_shown refs.now)) }
{
    let shown = keys_shown(alloc, refs.items())?;
    let shown = parted(alloc, shown.items())?;
    add_bytes(line, name, shown.bytes())
}

// A rule with one field that is printed.
fn with_field(alloc: Global, head: &[u8], name: &[u8], value: &Text) -> Result<Text, Memory>
    ensures { IfOk result (λ text. text ≡ head.now ++ printed_field name.now value.now) }
{
    let mut line = Vec::from_slice(alloc, head)?;
    add_field(&mut line, name, value)?;
    Text::from_vec(line)
}

// A rule with one field, a stamp.
fn with_stamp(alloc: Global, head: &[u8], name: &[u8], stamp: Stamp) -> Result<Text, Memory>
    ensures { IfOk result (λ text. text ≡ head.now ++ spec.field_text name.now (stamp_text stamp)) }
{
    let mut line = Vec::from_slice(alloc, head)?;
    add_bytes(&mut line, name, &stamp.print())?;
    Text::from_vec(line)
}

// A rule that a feed's extract breaks.
fn of_feed(alloc: Global, head: &[u8], feed: &Text) -> Result<Text, Memory>
    ensures { IfOk result (λ text. text ≡ spec.of_feed head.now feed.now) }
{
    with_field(alloc, head, b"feed", feed)
}

// A rule that a record of a feed's extract breaks.
fn of_record(alloc: Global, head: &[u8], feed: &Text, row_no: u32) -> Result<Text, Memory>
    ensures { IfOk result (λ text. text ≡ spec.of_record head.now feed.now row_no) }
{
    let mut line = Vec::from_slice(alloc, head)?;
    add_field(&mut line, b"feed", feed)?;
    add_number(alloc, &mut line, b"row_no", u64::from(row_no))?;
    Text::from_vec(line)
}

// A rule that a column of a feed's extract breaks.
fn of_column(alloc: Global, head: &[u8], feed: &Text, column: &Text) -> Result<Text, Memory>
    ensures { IfOk result (λ text. text ≡ spec.of_column head.now feed.now column.now) }
{
    let mut line = Vec::from_slice(alloc, head)?;
    add_field(&mut line, b"feed", feed)?;
    add_field(&mut line, b"name", column)?;
    Text::from_vec(line)
}

fn two_rows(alloc: Global, feed: &Text, earlier: u32, later: u32) -> Result<Text, Memory>
    ensures { IfOk result (λ text. text ≡ spec.rule_text (Rule.TwoRows feed.now earlier later)) }
{
    let mut line = Vec::from_slice(alloc, b"W16 TwoRows")?;
    add_field(&mut line, b"feed", feed)?;
    add_number(alloc, &mut line, b"earlier", u64::from(earlier))?;
    add_number(alloc, &mut line, b"later", u64::from(later))?;
    Text::from_vec(line)
}

fn two_drivers(alloc: Global, feed: &Text, driver: &List<Key>) -> Result<Text, Memory>
    ensures { IfOk result (λ text. text ≡ spec.rule_text (Rule.TwoDrivers feed.now driver.now)) }
{
    let mut line = Vec::from_slice(alloc, b"W18 TwoDrivers")?;
    add_field(&mut line, b"feed", feed)?;
    add_refs(alloc, &mut line, b"driver", driver)?;
    Text::from_vec(line)
}

fn collision(
    alloc: Global,
    table: &Text,
    first: &List<Key>,
    second: &List<Key>,
) -> Result<Text, Memory>
    ensures { IfOk result (λ text. text ≡ spec.rule_text (Rule.Collision table.now first.now second.now)) }
{
    let mut line = Vec::from_slice(alloc, b"W20 Collision")?;
    add_field(&mut line, b"table", table)?;
    add_refs(alloc, &mut line, b"first", first)?;
    add_refs(alloc, &mut line, b"second", second)?;
    Text::from_vec(line)
}

fn vault_full(alloc: Global, weight: u64, windows: u32) -> Result<Text, Memory>
    ensures { IfOk result (λ text. text ≡ spec.rule_text (Rule.VaultFull weight windows)) }
{
    let mut line = Vec::from_slice(alloc, b"W21 VaultFull")?;
    add_number(alloc, &mut line, b"weight", weight)?;
    add_number(alloc, &mut line, b"windows", u64::from(windows))?;
    Text::from_vec(line)
}

/// A rule as it is printed: its code, its name, and its fields `name=value`, parted by single spaces.
pub fn rule_text(alloc: Global, rule: &Rule) -> Result<Text, Memory>
    ensures { IfOk result (λ text. text ≡ spec.rule_text rule.now) }
{
    match rule {
        Rule::Manifest { place } => with_field(alloc, b"W0 Manifest", b"place", place),
        Rule::NoExtracts => Text::of(alloc, b"W1 NoExtracts"),
        Rule::UnknownFeed { name } => with_field(alloc, b"W2 UnknownFeed", b"name", name),
        Rule::FeedTwice { feed } => of_feed(alloc, b"W3 FeedTwice", feed),
        Rule::Late { last } => with_stamp(alloc, b"W4 Late", b"last", *last),
        Rule::OpenOther { load } => with_stamp(alloc, b"W5 OpenOther", b"load", *load),
        Rule::TooLong { feed } => of_feed(alloc, b"W6 TooLong", feed),
        Rule::NoHeader { feed } => of_feed(alloc, b"W7 NoHeader", feed),
        Rule::HeaderNotUtf8 { feed } => of_feed(alloc, b"W8 HeaderNotUtf8", feed),
        Rule::ColumnTwice { feed, name } => of_column(alloc, b"W9 ColumnTwice", feed, name),
        Rule::UnmappedColumn { feed, name } => of_column(alloc, b"W10 UnmappedColumn", feed, name),
        Rule::MissingColumn { feed, name } => of_column(alloc, b"W11 MissingColumn", feed, name),
        Rule::Ragged { feed, row_no } => of_record(alloc, b"W12 Ragged", feed, *row_no),
        Rule::NotUtf8 { feed, row_no } => of_record(alloc, b"W13 NotUtf8", feed, *row_no),
        Rule::FieldLong { feed, row_no } => of_record(alloc, b"W14 FieldLong", feed, *row_no),
        Rule::EmptyKey { feed, row_no } => of_record(alloc, b"W15 EmptyKey", feed, *row_no),
        Rule::TwoRows {
            feed,
            earlier,
            later,
        } => two_rows(alloc, feed, *earlier, *later),
        Rule::TooManyRows { feed, row_no } => of_record(alloc, b"W17 TooManyRows", feed, *row_no),
        Rule::TwoDrivers { feed, driver } => two_drivers(alloc, feed, driver),
        Rule::Differs { load } => with_stamp(alloc, b"W19 Differs", b"load", *load),
        Rule::Collision {
            table,
            first,
            second,
        } => collision(alloc, table, first, second),
        Rule::VaultFull { weight, windows } => vault_full(alloc, *weight, *windows),
    }
}
