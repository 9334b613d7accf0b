use crate::escapes::{number, put_text};
use crate::faults::Fault;
use crate::lines::Lines;
use std::alloc::Global;

/// Lines from one place in order to before another, of which those of a block begin with a stroke.
#[derive(Clone, Copy)]
pub(crate) struct Block {
    from: usize,
    to: usize,
}

/// A block without lines.
pub(crate) const EMPTY: Block = Block { from: 0, to: 0 };

impl Block {
    /// The block below a line, which has no lines yet.
    pub(crate) fn below(at: usize) -> Block {
        let from = at.saturating_add(1);
        Block { from, to: from }
    }

    /// Takes in what stands up to a line, and the line.
    pub(crate) fn grow(&mut self, at: usize) {
        self.to = at.saturating_add(1);
    }
}

// Puts a text and its newline behind bytes.
fn put_line(alloc: Global, into: &mut Vec<u8>, text: &str, number: u64) -> Result<(), Fault> {
    if put_text(alloc, into, text, number)? {
        into.push(b'\n')?;
    }
    Ok(())
}

fn put_lines(alloc: Global, into: &mut Vec<u8>, text: &str, count: u64) -> Result<(), Fault> {
    for number in 0..count {
        put_line(alloc, into, text, number)?;
    }
    Ok(())
}

// Puts what stands behind a stroke.
fn put_behind(alloc: Global, into: &mut Vec<u8>, behind: &str) -> Result<(), Fault> {
    match behind.strip_prefix("*") {
        Some(counted) => match counted.split_once(' ') {
            Some((count, text)) => put_lines(alloc, into, text, number(count)?),
            None => put_lines(alloc, into, "", number(counted)?),
        },
        None => put_line(alloc, into, behind.strip_prefix(" ").unwrap_or(behind), 0),
    }
}

/// Whether a line is one of a block, whose text is written as it may be.
pub(crate) fn is_block_line(alloc: Global, text: &str) -> Result<bool, Fault> {
    let Some(behind) = text.strip_prefix("|") else {
        return Ok(false);
    };
    let text = match behind.strip_prefix("*") {
        Some(counted) => match counted.split_once(' ') {
            Some((count, text)) => {
                number(count)?;
                text
            }
            None => {
                number(counted)?;
                ""
            }
        },
        None => behind,
    };
    put_text(alloc, &mut Vec::new(alloc), text, 0)?;
    Ok(true)
}

/// The bytes of a block.
pub(crate) fn bytes(alloc: Global, lines: &Lines, block: Block) -> Result<Vec<u8>, Fault> {
    let mut bytes = Vec::new(alloc);
    for at in block.from..block.to {
        if let Some(behind) = lines.text(at).strip_prefix("|") {
            put_behind(alloc, &mut bytes, behind)?;
        }
    }
    Ok(bytes)
}
