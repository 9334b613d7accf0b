use crate::fields::{date, digest, digests, pieces};
use crate::misfits::Misfit;
use dv_records::{BridgeRow, PitCell, PitRow, Snap, SnapTable};
use dv_text::List;
use std::alloc::Global;

// A cell of a point-in-time row: a load date or nothing, and whether the key is present.
fn cell(alloc: Global, bytes: &[u8]) -> Result<PitCell, Misfit> {
    let parts = pieces(alloc, bytes, b',')?;
    let [load, present] = parts.as_slice() else {
        return Err(Misfit::Line);
    };
    let load = if load.is_empty() {
        None
    } else {
        Some(date(load)?)
    };
    match *present {
        b"Y" => Ok(PitCell {
            load,
            present: true,
        }),
        b"N" => Ok(PitCell {
            load,
            present: false,
        }),
        _ => Err(Misfit::Line),
    }
}

fn cells(alloc: Global, pieces: &[&[u8]]) -> Result<List<PitCell>, Misfit> {
    let mut made = List::new(alloc);
    for piece in pieces {
        made.push(cell(alloc, piece)?)?;
    }
    Ok(made)
}

/// A point-in-time row: its hash key, and a cell for each feed.
pub(crate) fn pit_row(alloc: Global, line: &[u8]) -> Result<PitRow, Misfit> {
    let parts = pieces(alloc, line, b';')?;
    let [key, behind @ ..] = parts.as_slice() else {
        return Err(Misfit::Line);
    };
    Ok(PitRow {
        key: digest(alloc, key)?,
        cells: cells(alloc, behind)?,
    })
}

/// A row of a bridge: the hash keys of links, and those of hubs.
pub(crate) fn bridge_row(alloc: Global, line: &[u8]) -> Result<BridgeRow, Misfit> {
    let parts = pieces(alloc, line, b';')?;
    let [links, hubs] = parts.as_slice() else {
        return Err(Misfit::Line);
    };
    Ok(BridgeRow {
        links: digests(alloc, links)?,
        hubs: digests(alloc, hubs)?,
    })
}

/// Puts a table behind those of the last snapshot.
pub(crate) fn put_table(snaps: &mut List<Snap>, table: SnapTable) -> Result<(), Misfit> {
    let Some(mut snap) = snaps.pop() else {
        return Err(Misfit::Words);
    };
    let put = snap.tables.push(table);
    snaps.push(snap)?;
    put?;
    Ok(())
}
