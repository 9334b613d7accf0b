// The rows of a content, lent by the tables that they are read back from.
ghost use Rattle.std.specs.Prelude.{◌≡◌, IfOk, map};
ghost use Rattle.std.specs.Cmp.Lexicographic.{slice_cmp};
ghost use Rattle.std.specs.Ordering.{ordering_then};
ghost use Rattle.dv_text.specs.Orders.{refs_cmp, text_cmp};
ghost use Rattle.dv_text.specs.Prefixes.{row_prefix};

use dv_records::Ranked;
use dv_text::{Duplicate, Key, List, Memory, NRow, Prefixed, Text};
use std::alloc::Global;
use std::cmp::Ordering;
use std::marker::Model;

/// A row of which the keys and the texts are lent. Contracts see it as the row with these.
#[derive(Drop)]
pub struct ContentRow<'a> {
    pub(crate) refs: List<&'a Key>,
    pub(crate) sub: &'a [Text],
    pub(crate) attrs: &'a [Text],
}

impl<'a> Model for ContentRow<'a> {
    ghost use Rattle.std.specs.Prelude.{map};
    ghost use Rattle.dv_text.specs.declared.rows.NRow.{NRow};

    ghost Value = { NRow };

    ghost view = { λ row. record { refs = map (λ key. key.now) row.refs; sub = row.sub.now; attrs = row.attrs.now } };
}

/// The same keys, lent once more.
pub(crate) fn lent_again<'a>(keys: &List<&'a Key>) -> Result<List<&'a Key>, Memory>
    ensures { IfOk result (λ made. made ≡ keys.now) }
{
    let mut made = List::with_room(keys.allocator(), keys.items().len())?;
    for key in keys.items() {
        made.push(*key)?;
    }
    Ok(made)
}

/// Copies of keys.
pub(crate) fn copied_keys(keys: &List<&Key>) -> Result<List<Key>, Memory>
    ensures { IfOk result (λ made. made ≡ map (λ key. key.now) keys.now) }
{
    let mut made = List::with_room(keys.allocator(), keys.items().len())?;
    for key in keys.items() {
        made.push(key.copy()?)?;
    }
    Ok(made)
}

// Copies of texts.
fn copied_texts(alloc: Global, texts: &[Text]) -> Result<List<Text>, Memory>
    ensures { IfOk result (λ made. made ≡ texts.now) }
{
    let mut made = List::with_room(alloc, texts.len())?;
    for text in texts {
        made.push(text.copy()?)?;
    }
    Ok(made)
}

impl<'a> ContentRow<'a> {
    /// The references. Takes no memory.
    pub fn refs(&self) -> &[&'a Key]
        ensures { map (λ key. key.now) result.now ≡ self.now.refs }
    {
        self.refs.items()
    }

    /// The columns that tell several rows of one parent apart. Takes no memory.
    pub fn sub(&self) -> &'a [Text]
        ensures { result.now ≡ self.now.sub }
    {
        self.sub
    }

    /// The attributes. Takes no memory.
    pub fn attrs(&self) -> &'a [Text]
        ensures { result.now ≡ self.now.attrs }
    {
        self.attrs
    }

    /// The number of the first sixteen bytes of the first key: where those of two rows differ, the rows compare as
    /// they do. Takes no memory.
    pub(crate) fn prefix(&self) -> u128
        ensures { result ≡ row_prefix self.now }
    {
        match self.refs.items().first() {
            Some(key) => key.prefix(),
            None => 0,
        }
    }

    /// The same row, lent once more.
    pub(crate) fn lent(&self) -> Result<ContentRow<'a>, Memory>
        ensures { IfOk result (λ row. row ≡ self.now) }
    {
        let refs = lent_again(&self.refs)?;
        Ok(ContentRow {
            refs,
            sub: self.sub,
            attrs: self.attrs,
        })
    }

    // The order by references.
    fn refs_compared(&self, other: &ContentRow<'a>) -> Ordering
        ensures { result ≡ refs_cmp self.now.refs other.now.refs }
    {
        self.refs.cmp(&other.refs)
    }

    // The order by sub, then by attributes.
    fn texts_compared(&self, other: &ContentRow<'a>) -> Ordering
        ensures { result ≡ ordering_then (slice_cmp text_cmp self.now.sub other.now.sub) (slice_cmp text_cmp self.now.attrs other.now.attrs) }
    {
        (self.sub, self.attrs).cmp(&(other.sub, other.attrs))
    }

    // A row of its own, with copies of what is lent.
    fn copied(&self) -> Result<NRow, Memory>
        ensures { IfOk result (λ row. row ≡ self.now) }
    {
        let alloc = self.refs.allocator();
        let refs = copied_keys(&self.refs)?;
        let sub = copied_texts(alloc, self.sub)?;
        let attrs = copied_texts(alloc, self.attrs)?;
        Ok(NRow { refs, sub, attrs })
    }
}

impl<'a> Ranked for ContentRow<'a> {
    ghost use Rattle.dv_text.specs.Orders.{row_cmp};
    ghost use Rattle.dv_text.proofs.Deciding.{row_total};

    ghost rank_cmp = { row_cmp };

    fn compared(&self, other: &ContentRow<'a>) -> Ordering {
        match self.refs_compared(other) {
            Ordering::Equal => self.texts_compared(other),
            order => order,
        }
    }

    ghost total = { row_total };
}

/// Rows of their own, with copies of what is lent.
pub(crate) fn copied_rows(rows: &List<ContentRow>) -> Result<List<NRow>, Memory>
    ensures { IfOk result (λ made. made ≡ rows.now) }
{
    let mut made = List::with_room(rows.allocator(), rows.items().len())?;
    for row in rows.items() {
        made.push(row.copied()?)?;
    }
    Ok(made)
}
