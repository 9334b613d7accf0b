ghost use Rattle.std.specs.Prelude.{◌≡◌, ◌≤◌, [], IfOk, Some, length, map, nat_eq, refl};
ghost use Rattle.std.specs.Char.{to_ascii_uppercase};
ghost use Rattle.std.specs.Ordering.{nat_cmp};
ghost use Rattle.std.specs.Cmp;
ghost use Rattle.std.specs.Cmp.Lexicographic.{pointwise, slice_cmp, nat_list_eq_equiv, nat_list_cmp_total, texts_po, texts_ties};
ghost use Rattle.dv_text.specs.StoredTexts.{stored_text, IsStoredText};

use crate::failure::{Duplicate, Memory};
use std::alloc::Global;
use std::cmp::Ordering;
use std::marker::Model;

// Most texts are short: so many bytes are held in place, without memory of their own.
const IN_PLACE: usize = 22;

#[derive(Debug, Drop)]
enum Stored {
    Short { length: u8, place: [u8; 22] },
    Long(Box<Vec<u8>>),
}

/// A text of bytes. Contracts see it as its bytes. Texts are ordered by their bytes, a prefix first.
#[derive(Debug)]
pub struct Text {
    stored: Stored,
}

impl Model for Text {
    ghost use Rattle.std.specs.Prelude.{List, ℕ};
    ghost use Rattle.dv_text.specs.StoredTexts.{stored_text, IsStoredText};

    ghost Value = { List ℕ };

    ghost view = { λ t. stored_text t.stored };

    ghost invariant = { λ t. IsStoredText t.stored };
}

impl Drop for Text {
    fn drop(self) {
        let Text { stored } = self;
    }
}

// Bytes for which there is room in place.
fn in_place(bytes: &[u8]) -> Stored
    requires { length bytes.now ≤ 22 }
    ensures bytes { stored_text result ≡ bytes.now }
    ensures kept { IsStoredText result }
{
    let mut place = [0; 22];
    place[..bytes.len()].copy_from_slice(bytes);
    Stored::Short {
        length: bytes.len() as u8,
        place,
    }
}

impl Text {
    /// The text of no bytes. Takes no memory.
    pub fn empty() -> Text
        ensures { result ≡ [] }
    {
        Text {
            stored: in_place(b""),
        }
    }

    /// The text with these bytes.
    pub fn of(alloc: Global, bytes: &[u8]) -> Result<Text, Memory>
        ensures { IfOk result (λ t. t ≡ bytes.now) }
    {
        if bytes.len() <= IN_PLACE {
            return Ok(Text {
                stored: in_place(bytes),
            });
        }
        Text::from_vec(Vec::from_slice(alloc, bytes)?)
    }

    /// The text with these bytes.
    pub fn from_vec(bytes: Vec<u8>) -> Result<Text, Memory>
        ensures { IfOk result (λ t. t ≡ bytes.items) }
    {
        if bytes.len() <= IN_PLACE {
            return Ok(Text {
                stored: in_place(bytes.as_slice()),
            });
        }
        let long = Box::new(*bytes.allocator(), bytes)?;
        Ok(Text {
            stored: Stored::Long(long),
        })
    }

    /// The text with these bytes, of which the ASCII letters a to z are raised to A to Z.
    pub(crate) fn raised(alloc: Global, bytes: &[u8]) -> Result<Text, Memory>
        ensures { IfOk result (λ t. t ≡ map to_ascii_uppercase bytes.now) }
    {
        if bytes.len() > IN_PLACE {
            let mut long = Vec::from_slice(alloc, bytes)?;
            long.as_mut_slice().make_ascii_uppercase();
            return Text::from_vec(long);
        }
        let mut place = [0; 22];
        let front = &mut place[..bytes.len()];
        front.copy_from_slice(bytes);
        front.make_ascii_uppercase();
        Ok(Text {
            stored: in_place(front),
        })
    }

    /// The bytes of the text.
    pub fn bytes(&self) -> &[u8]
        ensures { result.now ≡ self.now }
    {
        match &self.stored {
            Stored::Short { length, place } => &place[..*length as usize],
            Stored::Long(bytes) => bytes.as_slice(),
        }
    }
}

impl Duplicate for Text {
    fn copy(&self) -> Result<Text, Memory> {
        match &self.stored {
            Stored::Short { length, place } => Ok(Text {
                stored: Stored::Short {
                    length: *length,
                    place: *place,
                },
            }),
            Stored::Long(bytes) => Text::of(*bytes.allocator(), bytes.as_slice()),
        }
    }
}

impl PartialEq for Text {
    ghost eq = { pointwise nat_eq };

    ghost laws = { Cmp.partial_equiv_from_equiv nat_list_eq_equiv };

    fn eq(&self, other: &Text) -> bool {
        self.bytes() == other.bytes()
    }
}

impl Eq for Text {
    ghost laws = { nat_list_eq_equiv };
}

impl PartialOrd for Text {
    ghost partial_cmp = { λ x y. Some (slice_cmp nat_cmp x y) };

    ghost laws = { texts_po };

    fn partial_cmp(&self, other: &Text) -> Option<Ordering> {
        Some(self.cmp(other))
    }
}

impl Ord for Text {
    ghost cmp = { slice_cmp nat_cmp };

    ghost total = { nat_list_cmp_total };

    ghost matches_partial_cmp = { λ x y. refl };

    ghost matches_eq = { texts_ties };

    fn cmp(&self, other: &Text) -> Ordering {
        self.bytes().cmp(&other.bytes())
    }
}
