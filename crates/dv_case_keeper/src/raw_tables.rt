use crate::fields::{date, digest, digests, key, lines, pieces, some_texts};
use crate::misfits::Misfit;
use dv_catalog::TableId;
use dv_records::{Code, EffectRow, HubRow, LinkRow, MultiRow, Rows, SatRow, StatusRow, TableRows};
use dv_text::{Digest, List, Stamp, Text};
use std::alloc::Global;

/// The kinds of raw tables.
#[derive(Clone, Copy)]
pub(crate) enum Kind {
    Hub,
    Link,
    Sat,
    Multi,
    Status,
    Effect,
}

/// The kind of a name.
pub(crate) fn kind_of(name: &str) -> Result<Kind, Misfit> {
    match name {
        "hub" => Ok(Kind::Hub),
        "link" => Ok(Kind::Link),
        "sat" => Ok(Kind::Sat),
        "msat" => Ok(Kind::Multi),
        "status" => Ok(Kind::Status),
        "eff" => Ok(Kind::Effect),
        _ => Err(Misfit::Words),
    }
}

/// The table of a kind and a number.
pub(crate) fn table(kind: Kind, number: u32) -> TableId {
    match kind {
        Kind::Hub => TableId::Hub(number),
        Kind::Link => TableId::Link(number),
        Kind::Sat => TableId::Sat(number),
        Kind::Multi => TableId::Multi(number),
        Kind::Status => TableId::Status(number),
        Kind::Effect => TableId::Effect(number),
    }
}

// What each row begins with, and what stands behind that.
#[derive(Drop)]
struct Front<'a> {
    digest: Digest,
    load: Stamp,
    source: Text,
    behind: &'a [u8],
}

// The bytes before a comma, and those behind it.
fn parted(bytes: &[u8]) -> Result<(&[u8], &[u8]), Misfit> {
    match bytes.iter().position(|byte| *byte == b',') {
        Some(at) => {
            let behind = bytes.get(at.saturating_add(1)..).unwrap_or(&[]);
            Ok((bytes.get(..at).unwrap_or(&[]), behind))
        }
        None => Err(Misfit::Line),
    }
}

// The same where nothing has to stand behind.
fn parted_or_whole(bytes: &[u8]) -> (&[u8], &[u8]) {
    match parted(bytes) {
        Ok(parts) => parts,
        Err(_) => (bytes, &[]),
    }
}

fn front_of(alloc: Global, line: &[u8]) -> Result<Front<'_>, Misfit> {
    let (key, behind) = parted(line)?;
    let (load, behind) = parted(behind)?;
    let (source, behind) = parted_or_whole(behind);
    Ok(Front {
        digest: digest(alloc, key)?,
        load: date(load)?,
        source: Text::of(alloc, source)?,
        behind,
    })
}

fn hub_row(alloc: Global, line: &[u8]) -> Result<HubRow, Misfit> {
    let front = front_of(alloc, line)?;
    Ok(HubRow {
        digest: front.digest,
        load: front.load,
        key: key(alloc, front.behind)?,
        source: front.source,
    })
}

fn link_row(alloc: Global, line: &[u8]) -> Result<LinkRow, Misfit> {
    let front = front_of(alloc, line)?;
    Ok(LinkRow {
        digest: front.digest,
        load: front.load,
        hubs: digests(alloc, front.behind)?,
        source: front.source,
    })
}

fn sat_row(alloc: Global, line: &[u8]) -> Result<SatRow, Misfit> {
    let front = front_of(alloc, line)?;
    let (diff, attrs) = parted_or_whole(front.behind);
    Ok(SatRow {
        parent: front.digest,
        load: front.load,
        diff: digest(alloc, diff)?,
        attrs: some_texts(alloc, attrs, b',')?,
        source: front.source,
    })
}

fn multi_row(alloc: Global, line: &[u8]) -> Result<MultiRow, Misfit> {
    let front = front_of(alloc, line)?;
    let (diff, behind) = parted(front.behind)?;
    let parts = pieces(alloc, behind, b';')?;
    let [sub, attrs] = parts.as_slice() else {
        return Err(Misfit::Line);
    };
    Ok(MultiRow {
        parent: front.digest,
        load: front.load,
        diff: digest(alloc, diff)?,
        sub: some_texts(alloc, sub, b',')?,
        attrs: some_texts(alloc, attrs, b',')?,
        source: front.source,
    })
}

fn status_row(alloc: Global, line: &[u8]) -> Result<StatusRow, Misfit> {
    let front = front_of(alloc, line)?;
    let code = match front.behind {
        b"I" => Code::I,
        b"D" => Code::D,
        _ => return Err(Misfit::Line),
    };
    Ok(StatusRow {
        parent: front.digest,
        load: front.load,
        source: front.source,
        code,
    })
}

fn effect_row(alloc: Global, line: &[u8]) -> Result<EffectRow, Misfit> {
    let front = front_of(alloc, line)?;
    let (begin, end) = parted(front.behind)?;
    Ok(EffectRow {
        parent: front.digest,
        load: front.load,
        begin: date(begin)?,
        end: date(end)?,
        source: front.source,
    })
}

/// What a function makes of each line of a block.
pub(crate) fn each<T: Drop, Make: Fn(Global, &[u8]) -> Result<T, Misfit>>(
    alloc: Global,
    block: &[u8],
    make: Make,
) -> Result<List<T>, Misfit>
    requires { Make.IsAlwaysCallable make }
{
    let mut made = List::new(alloc);
    for line in lines(alloc, block)?.iter() {
        made.push(make(alloc, line)?)?;
    }
    Ok(made)
}

/// The rows of a kind that the lines of a block are.
pub(crate) fn rows(alloc: Global, kind: Kind, block: &[u8]) -> Result<Rows, Misfit> {
    match kind {
        Kind::Hub => Ok(Rows::Hubs(each(alloc, block, hub_row)?)),
        Kind::Link => Ok(Rows::Links(each(alloc, block, link_row)?)),
        Kind::Sat => Ok(Rows::Sats(each(alloc, block, sat_row)?)),
        Kind::Multi => Ok(Rows::Multis(each(alloc, block, multi_row)?)),
        Kind::Status => Ok(Rows::Statuses(each(alloc, block, status_row)?)),
        Kind::Effect => Ok(Rows::Effects(each(alloc, block, effect_row)?)),
    }
}

/// The tables with other rows of one of them, which is the last where there was none.
pub(crate) fn with_table(
    alloc: Global,
    tables: List<TableRows>,
    table: TableId,
    rows: Rows,
) -> Result<List<TableRows>, Misfit> {
    let mut made = List::new(alloc);
    let mut other = Some(rows);
    for entry in tables.into_vec()? {
        let TableRows { table: id, rows } = entry;
        let rows = if id == table {
            other.take().unwrap_or(rows)
        } else {
            rows
        };
        made.push(TableRows { table: id, rows })?;
    }
    if let Some(rows) = other {
        made.push(TableRows { table, rows })?;
    }
    Ok(made)
}
