use crate::acts::{Connection, Step};
use crate::blocks::bytes;
use crate::escapes::put_text;
use crate::expectations::numbers;
use crate::faults::Fault;
use crate::lines::Lines;
use crate::scenes::{FileFrom, Scene, file_name};
use dv_outside::{MemoryDoors, MemoryFolder, MemoryLink, MemorySink, NamedFile};
use dv_text::{List, Text};
use std::alloc::Global;

/// What the program is given besides its words and the keeper, all of it in memory.
#[derive(Drop)]
pub struct Outside {
    pub folder: MemoryFolder,
    pub doors: MemoryDoors,
    pub out: MemorySink,
    pub err: MemorySink,
}

// Whether a later file of the same name stands in place of one at a step.
fn is_hidden(lines: &Lines, later: &[FileFrom], name: &str, step: usize) -> bool {
    later.iter().any(|file| file.step <= step && file_name(lines, file.at) == name)
}

// The files of the folder at a step.
fn files(
    alloc: Global,
    lines: &Lines,
    scene: &Scene,
    step: usize,
) -> Result<List<NamedFile>, Fault> {
    let mut made = List::new(alloc);
    let mut later = scene.files.as_slice();
    for _ in 0..scene.files.len() {
        let Some((file, behind)) = later.split_first() else {
            break;
        };
        later = behind;
        let name = file_name(lines, file.at);
        if file.step <= step && !file.is_gone && !is_hidden(lines, behind, name, step) {
            made.push(NamedFile {
                name: Text::of(alloc, name.as_bytes())?,
                bytes: List::from_vec(bytes(alloc, lines, file.block)?),
            })?;
        }
    }
    Ok(made)
}

/// A connection as it is given.
pub(crate) fn link(
    alloc: Global,
    lines: &Lines,
    connection: &Connection,
) -> Result<MemoryLink, Fault> {
    let input = List::from_vec(bytes(alloc, lines, connection.input)?);
    let piece = u32::try_from(connection.piece).unwrap_or(u32::MAX);
    let fails = numbers(alloc, lines, connection.fails)?;
    Ok(MemoryLink::new(alloc, input, piece.max(1), connection.room, fails)?)
}

fn links(
    alloc: Global,
    lines: &Lines,
    scene: &Scene,
    step: usize,
) -> Result<List<MemoryLink>, Fault> {
    let mut made = List::new(alloc);
    for connection in scene.connections.iter() {
        if connection.step == step {
            made.push(link(alloc, lines, connection)?)?;
        }
    }
    Ok(made)
}

/// What the program is given at a step of this number.
pub(crate) fn outside_of(
    alloc: Global,
    lines: &Lines,
    scene: &Scene,
    number: usize,
    step: &Step,
) -> Result<Outside, Fault> {
    let files = files(alloc, lines, scene, number)?;
    let coming = links(alloc, lines, scene, number)?;
    let reads = numbers(alloc, lines, step.reads)?;
    let doors = numbers(alloc, lines, step.doors)?;
    let out_fails = numbers(alloc, lines, step.out_fails)?;
    let err_fails = numbers(alloc, lines, step.err_fails)?;
    Ok(Outside {
        folder: MemoryFolder::new(files, reads),
        doors: MemoryDoors::new(alloc, coming, doors)?,
        out: MemorySink::new(alloc, step.out_room, out_fails)?,
        err: MemorySink::new(alloc, step.err_room, err_fails)?,
    })
}

fn word(alloc: Global, text: &str) -> Result<String, Fault> {
    let mut bytes = Vec::new(alloc);
    put_text(alloc, &mut bytes, text, 0)?;
    match String::from_utf8(bytes) {
        Ok(word) => Ok(word),
        Err(_) => Err(Fault::Wrong("a word is no UTF-8")),
    }
}

/// The words of a call.
pub(crate) fn words(alloc: Global, text: &str) -> Result<Vec<String>, Fault> {
    let mut words = Vec::new(alloc);
    for text in text.split(' ') {
        if !text.is_empty() {
            words.push(word(alloc, text)?)?;
        }
    }
    Ok(words)
}
