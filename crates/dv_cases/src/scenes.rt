use crate::acts::{Act, Connection, Step};
use crate::blocks::Block;
use crate::lines::Lines;
use dv_text::Memory;
use std::alloc::Global;

/// A file of the folder from a step on, or that it is gone; the name stands at the end of its line.
#[derive(Clone, Copy)]
pub(crate) struct FileFrom {
    pub(crate) at: usize,
    pub(crate) step: usize,
    pub(crate) is_gone: bool,
    pub(crate) block: Block,
}

/// A frame or a case: the line where it begins, its files and its steps with the connections that come to them.
#[derive(Drop)]
pub(crate) struct Scene {
    pub(crate) at: usize,
    pub(crate) is_case: bool,
    pub(crate) files: Vec<FileFrom>,
    pub(crate) steps: Vec<Step>,
    pub(crate) connections: Vec<Connection>,
}

/// The name of the file of which a line speaks.
pub(crate) fn file_name(lines: &Lines, at: usize) -> &str {
    let text = lines.text(at);
    let text = text.strip_prefix("then ").unwrap_or(text);
    let text = text.strip_prefix("no ").unwrap_or(text);
    text.strip_prefix("file ").unwrap_or("")
}

// Puts all items of one list behind those of another.
fn put_all<T: Copy + Drop>(into: &mut Vec<T>, items: &[T]) -> Result<(), Memory> {
    for item in items {
        into.push(*item)?;
    }
    Ok(())
}

impl Scene {
    pub(crate) fn new(alloc: Global, at: usize, is_case: bool) -> Scene {
        Scene {
            at,
            is_case,
            files: Vec::new(alloc),
            steps: Vec::new(alloc),
            connections: Vec::new(alloc),
        }
    }

    /// Takes over what another one has, behind what there is.
    pub(crate) fn take_over(&mut self, other: &Scene) -> Result<(), Memory> {
        let behind = self.steps.len();
        for file in other.files.iter() {
            let mut file = *file;
            file.step = file.step.saturating_add(behind);
            self.files.push(file)?;
        }
        for connection in other.connections.iter() {
            let mut connection = *connection;
            connection.step = connection.step.saturating_add(behind);
            self.connections.push(connection)?;
        }
        put_all(&mut self.steps, other.steps.as_slice())
    }

    /// The last step once more, with its connections; whether there is one.
    pub(crate) fn repeat(&mut self, alloc: Global) -> Result<bool, Memory> {
        let Some(step) = self.steps.last().copied() else {
            return Ok(false);
        };
        let number = self.steps.len();
        let mut more = Vec::new(alloc);
        for connection in self.connections.iter() {
            if connection.step.saturating_add(1) == number {
                let mut connection = *connection;
                connection.step = number;
                more.push(connection)?;
            }
        }
        put_all(&mut self.connections, more.as_slice())?;
        self.steps.push(step)?;
        Ok(true)
    }

    /// A file for all steps, in place of those of its name.
    pub(crate) fn put_file(&mut self, lines: &Lines, file: FileFrom) -> Result<(), Memory> {
        let name = file_name(lines, file.at);
        for other in self.files.iter_mut() {
            if file_name(lines, other.at) == name {
                other.step = usize::MAX;
            }
        }
        self.files.push(file)?;
        Ok(())
    }

    /// The first and the last of the calls for each of which this is played, and whether its change is made.
    pub(crate) fn each(&self) -> Option<(u64, u64, bool)> {
        for step in self.steps.iter() {
            if let Act::FailEach { first, last, done } = step.act {
                return Some((first, last, done));
            }
        }
        None
    }
}
