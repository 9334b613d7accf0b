use crate::lines::Lines;
use crate::reports::{Report, play_all};
use crate::stands::Stand;
use dv_text::Memory;
use std::alloc::Global;
use std::io::{self, BufRead, BufReader, Read, Write};
use std::process::ExitCode;
use std::thread::Threads;

const NO_MEMORY: u8 = 2;

// The lines that come from a reader.
fn lines<R: Read + Drop>(alloc: Global, reader: R) -> io::Result<Lines> {
    let mut lines = Lines::new(alloc);
    for line in BufReader::new(alloc, reader)?.lines(alloc) {
        if let Err(Memory) = lines.push(line?) {
            return Err(io::Error::from(io::ErrorKind::OutOfMemory));
        }
    }
    Ok(lines)
}

/// All that a program over cases does: it plays those that come from a reader, writes what is told of them, and answers
/// with the exit status.
pub fn play_from<R: Threads + Sync, S: Stand, I: Read + Drop, W: Write>(
    rt: &R,
    alloc: Global,
    reader: I,
    writer: &mut W,
    stand: &mut S,
) -> io::Result<ExitCode> {
    let lines = lines(alloc, reader)?;
    match play_all(rt, alloc, &lines, stand) {
        Ok(Report { text, status }) => {
            writer.write_all(text.as_slice())?;
            Ok(ExitCode::from(status))
        }
        Err(Memory) => Ok(ExitCode::from(NO_MEMORY)),
    }
}
