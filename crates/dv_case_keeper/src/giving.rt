use crate::fields::{date, place};
use crate::heads::{put_snapshots, windows};
use crate::keepers::CaseKeeper;
use crate::misfits::Misfit;
use crate::raw_tables::{each, kind_of, rows, table, with_table};
use crate::snapshots::{bridge_row, pit_row, put_table};
use crate::stages::extract;
use dv_records::{Rows, SnapId, SnapTable};
use dv_text::{List, Text, Window};
use std::alloc::Global;
use std::mem;

impl CaseKeeper {
    // The rows of a table, in place of those that there are.
    fn give_table(&mut self, alloc: Global, words: &str, block: &[u8]) -> Result<(), Misfit> {
        let (name, behind) = words.split_once(' ').ok_or(Misfit::Words)?;
        let (number, of_kind) = behind.split_once(" as ").unwrap_or((behind, name));
        let id = table(kind_of(name)?, place(number.as_bytes())?);
        let rows = rows(alloc, kind_of(of_kind)?, block)?;
        let tables = mem::replace(&mut self.store.tables, List::new(alloc));
        self.store.tables = with_table(alloc, tables, id, rows)?;
        Ok(())
    }

    // An open window without extracts.
    fn give_open(&mut self, alloc: Global, words: &str) -> Result<(), Misfit> {
        self.store.stage = Some(Window {
            load: date(words.as_bytes())?,
            extracts: List::new(alloc),
        });
        Ok(())
    }

    // An extract of the open window.
    fn give_extract(&mut self, alloc: Global, words: &str, block: &[u8]) -> Result<(), Misfit> {
        let extract = extract(alloc, place(words.as_bytes())?, block)?;
        match &mut self.store.stage {
            Some(window) => {
                window.extracts.push(extract)?;
                Ok(())
            }
            None => Err(Misfit::Words),
        }
    }

    // A table of the last snapshot, with rows of its kind or of the other.
    fn give_snapshot_table(
        &mut self,
        alloc: Global,
        kind: &str,
        words: &str,
        block: &[u8],
    ) -> Result<(), Misfit> {
        let (number, of_kind) = words.split_once(" as ").unwrap_or((words, kind));
        let number = place(number.as_bytes())?;
        let id = match kind {
            "pit" => SnapId::Pit(number),
            _ => SnapId::Bridge(number),
        };
        let rows = match of_kind {
            "pit" => Rows::Pits(each(alloc, block, pit_row)?),
            _ => Rows::Bridges(each(alloc, block, bridge_row)?),
        };
        put_table(&mut self.store.snapshots, SnapTable { id, rows })
    }

    /// Changes the store as the words and the lines of the block say (`docs/CASES.md`).
    pub fn give(&mut self, alloc: Global, words: &str, block: &[u8]) -> Result<(), Misfit> {
        let (word, behind) = words.split_once(' ').unwrap_or((words, ""));
        match word {
            "mapping" => self.store.mapping = Some(Text::of(alloc, block)?),
            "no" if behind == "mapping" => self.store.mapping = None,
            "windows" => self.store.windows = windows(alloc, block)?,
            "open" => self.give_open(alloc, behind)?,
            "none" if behind == "open" => self.store.stage = None,
            "extract" => self.give_extract(alloc, behind, block)?,
            "table" => self.give_table(alloc, behind, block)?,
            "snapshot" => put_snapshots(alloc, &mut self.store.snapshots, behind.as_bytes())?,
            "pit" | "bridge" => self.give_snapshot_table(alloc, word, behind, block)?,
            _ => return Err(Misfit::Words),
        }
        Ok(())
    }
}
