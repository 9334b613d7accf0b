//! The eight kinds of rows, as the file has them.
use crate::cells::Cells;
use crate::lines::{Given, Lines};
use crate::refusals::{Refusal, Result};
use dv_records::{
    BridgeRow, Code, EffectRow, HubRow, LinkRow, MultiRow, PitCell, PitRow, SatRow, StatusRow,
};
use dv_text::{Key, List};

/// A kind of rows.
pub(crate) trait StoredRow: Sized + Drop {
    /// The name of the kind in those of its tables.
    const NAME: &'static str;

    /// Gives the values of the row.
    fn give<'a>(&'a self, line: &mut Lines<'a>) -> Result<()>;

    /// The row that was read. A fault where its values are no row's.
    fn read(cells: &mut Cells<'_>) -> Result<Self>;
}

impl StoredRow for HubRow {
    const NAME: &'static str = "hub";

    fn give<'a>(&'a self, line: &mut Lines<'a>) -> Result<()> {
        line.head(&self.digest, self.load, &self.source)?;
        line.texts("part_", &self.key.parts)
    }

    fn read(cells: &mut Cells<'_>) -> Result<HubRow> {
        Ok(HubRow {
            digest: cells.digest()?,
            load: cells.date()?,
            source: cells.text()?,
            key: Key {
                parts: cells.texts("part_")?,
            },
        })
    }
}

impl StoredRow for LinkRow {
    const NAME: &'static str = "link";

    fn give<'a>(&'a self, line: &mut Lines<'a>) -> Result<()> {
        line.head(&self.digest, self.load, &self.source)?;
        line.digests("hub_", &self.hubs)
    }

    fn read(cells: &mut Cells<'_>) -> Result<LinkRow> {
        Ok(LinkRow {
            digest: cells.digest()?,
            load: cells.date()?,
            source: cells.text()?,
            hubs: cells.digests("hub_")?,
        })
    }
}

impl StoredRow for SatRow {
    const NAME: &'static str = "sat";

    fn give<'a>(&'a self, line: &mut Lines<'a>) -> Result<()> {
        line.head(&self.parent, self.load, &self.source)?;
        line.put(("hash_diff", None), Given::Blob(self.diff.bytes()))?;
        line.texts("attribute_", &self.attrs)
    }

    fn read(cells: &mut Cells<'_>) -> Result<SatRow> {
        Ok(SatRow {
            parent: cells.digest()?,
            load: cells.date()?,
            source: cells.text()?,
            diff: cells.digest()?,
            attrs: cells.texts("attribute_")?,
        })
    }
}

impl StoredRow for MultiRow {
    const NAME: &'static str = "msat";

    fn give<'a>(&'a self, line: &mut Lines<'a>) -> Result<()> {
        line.head(&self.parent, self.load, &self.source)?;
        line.put(("hash_diff", None), Given::Blob(self.diff.bytes()))?;
        line.texts("sub_", &self.sub)?;
        line.texts("attribute_", &self.attrs)
    }

    fn read(cells: &mut Cells<'_>) -> Result<MultiRow> {
        Ok(MultiRow {
            parent: cells.digest()?,
            load: cells.date()?,
            source: cells.text()?,
            diff: cells.digest()?,
            sub: cells.texts("sub_")?,
            attrs: cells.texts("attribute_")?,
        })
    }
}

impl StoredRow for StatusRow {
    const NAME: &'static str = "status";

    fn give<'a>(&'a self, line: &mut Lines<'a>) -> Result<()> {
        line.head(&self.parent, self.load, &self.source)?;
        let code: &[u8] = match self.code {
            Code::I => b"I",
            Code::D => b"D",
        };
        line.put(("status", None), Given::Text(code))
    }

    fn read(cells: &mut Cells<'_>) -> Result<StatusRow> {
        Ok(StatusRow {
            parent: cells.digest()?,
            load: cells.date()?,
            source: cells.text()?,
            code: match cells.letters()? {
                b"I" => Code::I,
                b"D" => Code::D,
                _ => return Err(Refusal::Fault),
            },
        })
    }
}

impl StoredRow for EffectRow {
    const NAME: &'static str = "eff";

    fn give<'a>(&'a self, line: &mut Lines<'a>) -> Result<()> {
        line.head(&self.parent, self.load, &self.source)?;
        line.put(("begin", None), Given::Date(self.begin.print()))?;
        line.put(("end", None), Given::Date(self.end.print()))
    }

    fn read(cells: &mut Cells<'_>) -> Result<EffectRow> {
        Ok(EffectRow {
            parent: cells.digest()?,
            load: cells.date()?,
            source: cells.text()?,
            begin: cells.date()?,
            end: cells.date()?,
        })
    }
}

/// A cell for each feed of a hub: the load date, empty where there is none, and `Y` or `N`, as the
/// printed table has them.
impl StoredRow for PitRow {
    const NAME: &'static str = "pit";

    fn give<'a>(&'a self, line: &mut Lines<'a>) -> Result<()> {
        line.put(("hash_key", None), Given::Blob(self.key.bytes()))?;
        for (at, cell) in self.cells.items().iter().enumerate() {
            let load = match cell.load {
                Some(load) => Given::Date(load.print()),
                None => Given::Text(b""),
            };
            let present: &[u8] = if cell.present { b"Y" } else { b"N" };
            line.put(("load_", Some(at)), load)?;
            line.put(("present_", Some(at)), Given::Text(present))?;
        }
        Ok(())
    }

    fn read(cells: &mut Cells<'_>) -> Result<PitRow> {
        let key = cells.digest()?;
        let mut found = List::new(cells.alloc);
        for _ in 0..cells.left() / 2 {
            let load = cells.date_or_none()?;
            let present = match cells.letters()? {
                b"Y" => true,
                b"N" => false,
                _ => return Err(Refusal::Fault),
            };
            found.push(PitCell { load, present })?;
        }
        Ok(PitRow { key, cells: found })
    }
}

/// The links of a path's feeds, and the hubs of them all.
impl StoredRow for BridgeRow {
    const NAME: &'static str = "bridge";

    fn give<'a>(&'a self, line: &mut Lines<'a>) -> Result<()> {
        line.digests("link_", &self.links)?;
        line.digests("hub_", &self.hubs)
    }

    fn read(cells: &mut Cells<'_>) -> Result<BridgeRow> {
        Ok(BridgeRow {
            links: cells.digests("link_")?,
            hubs: cells.digests("hub_")?,
        })
    }
}
