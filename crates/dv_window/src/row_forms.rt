// What the rows of a stored table have to be.
ghost use Rattle.std.specs.List.{list_all};
ghost use Rattle.std.specs.Prelude.{◌≡◌, Bool, List as list_of, Option, Some, length};
ghost use Rattle.dv_records.specs.declared.stores.Rows.{Rows};
ghost use Rattle.dv_records.specs.Stores.{row_count};
ghost use Rattle.dv_window.specs.StoredRows.{has_width};

use dv_records::Rows;
use dv_text::{Digest, List};

/// The form of the rows of a table of a snapshot, which are of one kind.
pub(crate) trait RowForm<R> {
    /// The rows, where they are of the form's kind.
    ghost own: { Rows → Option (list_of R) };

    /// Whether a row of this kind has the form.
    ghost is_sound: { Self → R → Bool };

    /// The rows, where they are of the form's kind. Takes no memory.
    fn own(&self, rows: Rows) -> Option<List<R>>
        ensures { result ≡ own rows };

    /// Whether a row has the form. Takes no memory.
    fn is_sound(&self, row: &R) -> bool
        ensures { result ≡ is_sound self.now row.now };

    /// Rows of the form's kind are as many.
    ghost counted: { (rows : Rows) (xs : list_of R) → own rows ≡ Some xs → row_count rows ≡ length xs };
}

/// Whether a digest has so many bytes. Takes no memory.
pub(crate) fn is_wide(digest: &Digest, width: u8) -> bool
    ensures { result ≡ has_width width digest.now }
{
    digest.bytes().len() == usize::from(width)
}

/// Whether digests have so many bytes each. Takes no memory.
pub(crate) fn are_wide(digests: &[Digest], width: u8) -> bool
    ensures { result ≡ list_all (has_width width) digests.now }
{
    digests.iter().all(|digest| is_wide(digest, width))
}
