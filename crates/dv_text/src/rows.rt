ghost use Rattle.std.specs.Prelude.{◌≡◌};
ghost use Rattle.std.specs.List.{list_all};
ghost use Rattle.dv_text.specs.Keys as keys;

use crate::failure::{Duplicate, Memory};
use crate::lists::List;
use crate::stamps::Stamp;
use crate::texts::Text;

/// A business key, as its parts in order.
#[derive(Debug, PartialEq, Eq, PartialOrd, Ord, Drop)]
pub struct Key {
    pub parts: List<Text>,
}

impl Key {
    /// Whether the key is missing: all its parts are empty. Takes no memory. A key of two empty
    /// parts is missing, and one of an empty part and `A` isn't.
    pub fn is_missing(&self) -> bool
        ensures { result ≡ keys.is_missing self.now }
    {
        self.parts
            .items()
            .iter()
            .all(|part| part.bytes().is_empty())
    }
}

/// Whether every key of a reference list is missing. Takes no memory. It is not so of a missing key
/// and the key `P`.
pub fn are_missing(refs: &[Key]) -> bool
    ensures { result ≡ list_all keys.is_missing refs.now }
{
    refs.iter().all(|key| key.is_missing())
}

impl Duplicate for Key {
    fn copy(&self) -> Result<Key, Memory> {
        let parts = self.parts.copy()?;
        Ok(Key { parts })
    }
}

/// A normalised row of an extract: the business keys that it refers to, the columns that tell several
/// rows of one parent apart, and the descriptive attributes.
#[derive(Debug, PartialEq, Eq, PartialOrd, Ord, Drop)]
pub struct NRow {
    pub refs: List<Key>,
    pub sub: List<Text>,
    pub attrs: List<Text>,
}

impl Duplicate for NRow {
    fn copy(&self) -> Result<NRow, Memory> {
        let refs = self.refs.copy()?;
        let sub = self.sub.copy()?;
        let attrs = self.attrs.copy()?;
        Ok(NRow { refs, sub, attrs })
    }
}

/// The rows of one feed in a window, by the feed's place in the mapping. The rows ascend and are distinct.
#[derive(Debug, PartialEq, Eq, Drop)]
pub struct Staged {
    pub feed: u32,
    pub rows: List<NRow>,
}

impl Duplicate for Staged {
    fn copy(&self) -> Result<Staged, Memory> {
        let rows = self.rows.copy()?;
        Ok(Staged {
            feed: self.feed,
            rows,
        })
    }
}

/// A load date, and the rows of each feed that is delivered under it. The feeds ascend.
#[derive(Debug, PartialEq, Eq, Drop)]
pub struct Window {
    pub load: Stamp,
    pub extracts: List<Staged>,
}

impl Duplicate for Window {
    fn copy(&self) -> Result<Window, Memory> {
        let extracts = self.extracts.copy()?;
        Ok(Window {
            load: self.load,
            extracts,
        })
    }
}

/// A load date, and the feeds that are delivered under it.
#[derive(Debug, PartialEq, Eq, Drop)]
pub struct WindowHead {
    pub load: Stamp,
    pub feeds: List<u32>,
}

impl Duplicate for WindowHead {
    fn copy(&self) -> Result<WindowHead, Memory> {
        let feeds = self.feeds.copy()?;
        Ok(WindowHead {
            load: self.load,
            feeds,
        })
    }
}
