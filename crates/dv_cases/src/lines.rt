use dv_text::Memory;
use std::alloc::Global;

/// Where a line stands: the line that names its file, if one does, and its number there, from 1.
#[derive(Clone, Copy)]
pub(crate) struct Place {
    pub(crate) file: Option<usize>,
    pub(crate) number: u64,
}

/// The lines of cases, in order. What follows a line `at NAME` is counted from 1 again.
#[derive(Drop)]
pub struct Lines {
    texts: Vec<String>,
    places: Vec<Place>,
    next: Place,
}

impl Lines {
    /// No lines.
    pub fn new(alloc: Global) -> Lines {
        Lines {
            texts: Vec::new(alloc),
            places: Vec::new(alloc),
            next: Place {
                file: None,
                number: 1,
            },
        }
    }

    /// Puts a line behind the others.
    pub fn push(&mut self, line: String) -> Result<(), Memory> {
        let place = self.next;
        if line.as_str().starts_with("at ") {
            self.next = Place {
                file: Some(self.texts.len()),
                number: 1,
            };
        } else {
            self.next.number = self.next.number.saturating_add(1);
        }
        self.texts.push(line)?;
        self.places.push(place)?;
        Ok(())
    }

    pub(crate) fn len(&self) -> usize {
        self.texts.len()
    }

    /// The line at a place in order without blanks at its front; nothing where there is none.
    pub(crate) fn text(&self, at: usize) -> &str {
        match self.texts.get(at) {
            Some(text) => text.as_str().trim_start(),
            None => "",
        }
    }

    /// What stands behind the first word of a line.
    pub(crate) fn behind(&self, at: usize) -> &str {
        match self.text(at).split_once(' ') {
            Some((_, behind)) => behind,
            None => "",
        }
    }

    /// The name of the file in which a line stands, and its number there.
    pub(crate) fn place(&self, at: usize) -> (&str, u64) {
        match self.places.get(at) {
            Some(place) => match place.file {
                Some(file) => (self.behind(file), place.number),
                None => ("line", place.number),
            },
            None => ("line", 0),
        }
    }
}
