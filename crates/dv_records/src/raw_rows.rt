use dv_text::{Digest, Duplicate, Key, List, Memory, Stamp, Text};

/// A row of a hub: the hash key of a business key, when it was first delivered and by which feed, and the
/// key itself (Linstedt and Olschimke 2015, chapter 4, on hubs).
#[derive(Debug, PartialEq, Eq, Drop)]
pub struct HubRow {
    pub digest: Digest,
    pub load: Stamp,
    pub source: Text,
    pub key: Key,
}

impl Duplicate for HubRow {
    fn copy(&self) -> Result<HubRow, Memory> {
        let source = self.source.copy()?;
        let key = self.key.copy()?;
        Ok(HubRow {
            digest: self.digest,
            load: self.load,
            source,
            key,
        })
    }
}

/// A row of a link: the hash key of a reference list, when it was first delivered and by which feed, and
/// the hash key of each reference (chapter 4, on links). A missing reference has the zero key.
#[derive(Debug, PartialEq, Eq, Drop)]
pub struct LinkRow {
    pub digest: Digest,
    pub load: Stamp,
    pub source: Text,
    pub hubs: List<Digest>,
}

impl Duplicate for LinkRow {
    fn copy(&self) -> Result<LinkRow, Memory> {
        let source = self.source.copy()?;
        let hubs = self.hubs.copy()?;
        Ok(LinkRow {
            digest: self.digest,
            load: self.load,
            source,
            hubs,
        })
    }
}

/// A row of a satellite: what described a parent from its load date on (chapter 4, on satellites).
#[derive(Debug, PartialEq, Eq, Drop)]
pub struct SatRow {
    pub parent: Digest,
    pub load: Stamp,
    pub source: Text,
    pub diff: Digest,
    pub attrs: List<Text>,
}

impl Duplicate for SatRow {
    fn copy(&self) -> Result<SatRow, Memory> {
        let source = self.source.copy()?;
        let attrs = self.attrs.copy()?;
        Ok(SatRow {
            parent: self.parent,
            load: self.load,
            source,
            diff: self.diff,
            attrs,
        })
    }
}

/// A row of a multi-active satellite: one of several that described a parent from its load date on
/// (chapter 5, on multi-active satellites).
#[derive(Debug, PartialEq, Eq, Drop)]
pub struct MultiRow {
    pub parent: Digest,
    pub load: Stamp,
    pub source: Text,
    pub diff: Digest,
    pub sub: List<Text>,
    pub attrs: List<Text>,
}

impl Duplicate for MultiRow {
    fn copy(&self) -> Result<MultiRow, Memory> {
        let source = self.source.copy()?;
        let sub = self.sub.copy()?;
        let attrs = self.attrs.copy()?;
        Ok(MultiRow {
            parent: self.parent,
            load: self.load,
            source,
            diff: self.diff,
            sub,
            attrs,
        })
    }
}

/// Whether a parent appeared (`I`) or vanished (`D`).
#[derive(Clone, Copy, Debug, PartialEq, Eq)]
pub enum Code {
    I,
    D,
}

/// A row of a status tracking satellite: a parent appeared or vanished with the extract of a load date
/// (chapter 5, on status tracking satellites).
#[derive(Debug, PartialEq, Eq, Drop)]
pub struct StatusRow {
    pub parent: Digest,
    pub load: Stamp,
    pub source: Text,
    pub code: Code,
}

impl Duplicate for StatusRow {
    fn copy(&self) -> Result<StatusRow, Memory> {
        let source = self.source.copy()?;
        Ok(StatusRow {
            parent: self.parent,
            load: self.load,
            source,
            code: self.code,
        })
    }
}

/// A row of an effectivity satellite: a relationship began at its load date and has no end yet, or it
/// ended at its load date (chapter 5, on effectivity satellites).
#[derive(Debug, PartialEq, Eq, Drop)]
pub struct EffectRow {
    pub parent: Digest,
    pub load: Stamp,
    pub source: Text,
    pub begin: Stamp,
    pub end: Stamp,
}

impl Duplicate for EffectRow {
    fn copy(&self) -> Result<EffectRow, Memory> {
        let source = self.source.copy()?;
        Ok(EffectRow {
            parent: self.parent,
            load: self.load,
            source,
            begin: self.begin,
            end: self.end,
        })
    }
}
