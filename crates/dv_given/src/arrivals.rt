// What a manifest and its files bring.
ghost use Rattle.dv_outside.specs.Seen.{seen};
ghost use Rattle.dv_given.specs.FolderReads.{Arrives, ReadsExtract, ReadsExtracts, ReadsFiles, ReadsNext};
ghost use Rattle.dv_given.specs.Readings.{reading_of};

use crate::endings::Ending;
use crate::reads::read_named;
use dv_catalog::{
    ExtractIn, MOST_EXTRACT_BYTES, MOST_MANIFEST_BYTES, MOST_WINDOW_BYTES, Rule, WindowIn,
};
use dv_mapfile::{Manifest, ManifestExtract, ShapeFault};
use dv_outside::Folder;
use dv_text::{Duplicate, List, Memory, Text};
use std::alloc::Global;

/// What a manifest brings: a window, or the rule that it breaks before the load.
#[derive(Drop)]
pub enum Arrived {
    Broken(Rule),
    Brought(WindowIn),
}

/// How far the reading of a manifest's extracts has come: the extracts so far, how many bytes are
/// left of a window's, and whether one of the extracts has too many.
#[derive(Drop)]
struct Reading {
    extracts: List<ExtractIn>,
    left: u64,
    is_over: bool,
}

impl Reading {
    ghost use Rattle.std.specs.Prelude.{◌≡◌, ◌≤◌, OnOk};
    ghost use Rattle.dv_given.specs.Readings as spec;
    ghost use Rattle.dv_given.specs.Readings.{reading_of};

    fn new(alloc: Global) -> Reading
        ensures { reading_of result ≡ spec.no_reading }
    {
        Reading {
            extracts: List::new(alloc),
            left: MOST_WINDOW_BYTES as u64,
            is_over: false,
        }
    }

    // How many bytes the next extract may have.
    fn allowed(&self) -> u64
        ensures value { result ≡ spec.allowed self.now.left }
        ensures most { result ≤ 33554432 }
    {
        (MOST_EXTRACT_BYTES as u64).min(self.left)
    }

    // Puts the next extract behind those that were read.
    fn add(&mut self, feed: &Text, bytes: List<u8>) -> Result<(), Memory>
        ensures { OnOk result (reading_of self.new ≡ spec.with_extract feed.now bytes (reading_of self.old)) }
    {
        let feed = feed.copy()?;
        let count = bytes.items().len() as u64;
        let is_over = self.is_over || count > self.allowed();
        self.extracts.push(ExtractIn { feed, bytes })?;
        self.is_over = is_over;
        self.left = self.left.saturating_sub(count);
        Ok(())
    }
}

// The first bytes of an extract's file, one more than it may have. Behind an extract with too many
// no file is read, and there are none.
fn extract_bytes<F: Folder>(
    alloc: Global,
    folder: &mut F,
    reading: &Reading,
    extract: &ManifestExtract,
) -> Result<List<u8>, Ending>
    ensures { ReadsExtract (reading_of reading.now) extract.now (seen F.files F.faults folder.old folder.new) result }
{
    if reading.is_over {
        return Ok(List::new(alloc));
    }
    read_named(alloc, folder, &extract.file, reading.allowed() + 1)
}

// The next extract of a manifest, with the bytes of its file.
fn read_extract<F: Folder>(
    alloc: Global,
    folder: &mut F,
    reading: &mut Reading,
    extract: &ManifestExtract,
) -> Result<(), Ending>
    ensures { ReadsNext extract.now (reading_of reading.old) (reading_of reading.new) (seen F.files F.faults folder.old folder.new) result }
{
    let bytes = extract_bytes(alloc, folder, reading, extract)?;
    reading.add(&extract.feed, bytes)?;
    Ok(())
}

// The extracts of a manifest in its order, with the bytes of their files.
fn read_extracts<F: Folder>(
    alloc: Global,
    folder: &mut F,
    extracts: &[ManifestExtract],
) -> Result<List<ExtractIn>, Ending>
    ensures { ReadsExtracts extracts.now (seen F.files F.faults folder.old folder.new) result }
{
    let mut reading = Reading::new(alloc);
    for extract in extracts {
        read_extract(alloc, folder, &mut reading, extract)?;
    }
    Ok(reading.extracts)
}

// What the manifest of these bytes brings, with the files that it names. Of a file past its limit
// one byte more is read, and the files behind it are not: that changes no outcome, and no window
// that is loaded.
fn bring_files<F: Folder>(alloc: Global, folder: &mut F, bytes: &[u8]) -> Result<Arrived, Ending>
    ensures { ReadsFiles bytes.now (seen F.files F.faults folder.old folder.new) result }
{
    let manifest = match Manifest::read(alloc, bytes) {
        Ok(manifest) => manifest,
        Err(ShapeFault::Memory) => return Err(Ending::Memory),
        Err(ShapeFault::At(place)) => {
            return Ok(Arrived::Broken(Rule::Manifest { place }));
        }
    };
    let extracts = read_extracts(alloc, folder, manifest.extracts.items())?;
    Ok(Arrived::Brought(WindowIn {
        load: manifest.load,
        extracts,
    }))
}

/// What the manifest of a name brings.
pub fn bring<F: Folder>(alloc: Global, folder: &mut F, name: &Text) -> Result<Arrived, Ending>
    ensures { Arrives name.now (seen F.files F.faults folder.old folder.new) result }
{
    let bytes = read_named(alloc, folder, name, MOST_MANIFEST_BYTES as u64 + 1)?;
    bring_files(alloc, folder, bytes.items())
}
