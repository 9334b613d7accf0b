//! The windows as CSV.

ghost use Rattle.std.specs.Prelude.{◌≡◌, ◌∷◌, [], ◌++◌, codes, flat_map, map, slice_get, IfOk, OnOk, option_map};
ghost use Rattle.std.specs.Io.KnownBytes.{Appends};
ghost use Rattle.std.specs.List.{join_with_byte};
ghost use Rattle.std.specs.Option.{option_to_list};
ghost use Rattle.csv.specs.Writing.{text_written};
ghost use Rattle.dv_catalog.specs.Tables.{feed_name};
ghost use Rattle.dv_print.specs.Texts as spec;
ghost use Rattle.dv_print.specs.Texts.{csv_text};
ghost use Rattle.dv_print.specs.Writers.{IsBetweenRecords};

use crate::csv_texts::{new_writer, put_record, put_row, text_of};
use crate::fields::Fields;
use crate::names::name_of_feed;
use crate::recorded::Recorded;
use csv::Writer;
use dv_catalog::Catalog;
use dv_text::{Memory, Text, WindowHead};
use std::alloc::Global;
use std::io::Write;

// A window and its state, with the mapping that names its feeds.
#[derive(Drop)]
struct StatedHead<'a> {
    catalog: &'a Catalog,
    state: &'a [u8],
    head: &'a WindowHead,
}

// Puts the names of feeds behind others, each with a space before it.
fn push_names(names: &mut Vec<u8>, catalog: &Catalog, feeds: &[u32]) -> Result<(), Memory>
    ensures { OnOk result (names.new.items ≡ names.old.items ++ flat_map (λ feed. 32 ∷ feed_name (slice_get catalog.now.feeds feed)) feeds.now) }
{
    for feed in feeds {
        names.push(b' ')?;
        names.extend_from_slice(name_of_feed(catalog, *feed))?;
    }
    Ok(())
}

// The names of feeds, with a space between each and the next.
fn joined_names(catalog: &Catalog, feeds: &[u32]) -> Result<Vec<u8>, Memory>
    ensures { IfOk result (λ names. names.items ≡ join_with_byte 32 (map (λ feed. feed_name (slice_get catalog.now.feeds feed)) feeds.now)) }
{
    let alloc = catalog.allocator();
    let Some((first, rest)) = feeds.split_first() else {
        return Ok(Vec::new(alloc));
    };
    let mut names = Vec::from_slice(alloc, name_of_feed(catalog, *first))?;
    push_names(&mut names, catalog, rest)?;
    Ok(names)
}

impl<'a> Recorded for StatedHead<'a> {
    ghost record_of = { λ window. spec.head_record window.catalog.now window.state.now window.head.now };

    fn put(&self, fields: &mut Fields) -> Result<(), Memory> {
        fields.push_stamp(self.head.load)?;
        fields.push(self.state)?;
        let names = joined_names(self.catalog, self.head.feeds.items())?;
        fields.push(names.as_slice())
    }
}

fn windows_header(alloc: Global) -> Result<Fields, Memory>
    ensures { IfOk result (λ header. header ≡ codes "load_date" ∷ codes "state" ∷ codes "feeds" ∷ []) }
{
    let mut header = Fields::new(alloc);
    header.push(b"load_date")?;
    header.push(b"state")?;
    header.push(b"feeds")?;
    Ok(header)
}

// Writes the records of sealed windows.
fn put_sealed<W: Write + Drop>(
    writer: &mut Writer<W>,
    fields: &mut Fields,
    catalog: &Catalog,
    sealed: &[WindowHead],
) -> Result<(), Memory>
    requires { IsBetweenRecords writer.old }
    ensures text { OnOk result (Appends (text_written W.contents writer.old) (text_written W.contents writer.new) (csv_text (map (spec.head_record catalog.now (codes "sealed")) sealed.now))) }
    ensures between { OnOk result (IsBetweenRecords writer.new) }
{
    for head in sealed {
        let window = StatedHead {
            catalog,
            state: b"sealed",
            head,
        };
        put_row(writer, fields, &window)?;
    }
    Ok(())
}

// Writes the record of the open window, where there is one.
fn put_open<W: Write + Drop>(
    writer: &mut Writer<W>,
    fields: &mut Fields,
    catalog: &Catalog,
    begun: Option<&WindowHead>,
) -> Result<(), Memory>
    requires { IsBetweenRecords writer.old }
    ensures text { OnOk result (Appends (text_written W.contents writer.old) (text_written W.contents writer.new) (csv_text (map (spec.head_record catalog.now (codes "open")) (option_to_list (option_map (λ head. head.now) begun.entry))))) }
    ensures between { OnOk result (IsBetweenRecords writer.new) }
{
    let Some(head) = begun else {
        return Ok(());
    };
    let window = StatedHead {
        catalog,
        state: b"open",
        head,
    };
    put_row(writer, fields, &window)
}

/// The windows as CSV: the sealed ones in order, then the open one, each with its load date, its
/// state and the names of its feeds.
pub fn windows_text(
    alloc: Global,
    catalog: &Catalog,
    sealed: &[WindowHead],
    begun: Option<&WindowHead>,
) -> Result<Text, Memory>
    ensures { IfOk result (λ text. text ≡ spec.windows_text catalog.now sealed.now (option_to_list (option_map (λ head. head.now) begun.entry))) }
{
    let mut fields = windows_header(alloc)?;
    let mut writer = new_writer(alloc);
    put_record(&mut writer, &fields)?;
    put_sealed(&mut writer, &mut fields, catalog, sealed)?;
    put_open(&mut writer, &mut fields, catalog, begun)?;
    text_of(writer)
}
