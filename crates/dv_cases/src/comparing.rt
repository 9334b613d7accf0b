use dv_text::Memory;
use std::alloc::Global;

/// What is told of the cases that don't hold, and how much of the case that is played differs.
#[derive(Drop)]
pub(crate) struct Told {
    pub(crate) alloc: Global,
    pub(crate) text: Vec<u8>,
    pub(crate) differences: u64,
}

// The most that is shown of a line.
const MOST_SHOWN: usize = 300;

impl Told {
    pub(crate) fn new(alloc: Global) -> Told {
        Told {
            alloc,
            text: Vec::new(alloc),
            differences: 0,
        }
    }

    pub(crate) fn put(&mut self, text: &str) -> Result<(), Memory> {
        self.text.extend_from_slice(text.as_bytes())?;
        Ok(())
    }

    pub(crate) fn put_number(&mut self, number: u64) -> Result<(), Memory> {
        let text = number.to_string(self.alloc)?;
        self.put(text.as_str())
    }

    /// A place: a file's name and a line's number.
    pub(crate) fn put_place(&mut self, (file, number): (&str, u64)) -> Result<(), Memory> {
        self.put(file)?;
        self.put(" ")?;
        self.put_number(number)
    }

    // A byte of a text, or what it is written as.
    fn put_byte(&mut self, byte: u8) -> Result<(), Memory> {
        match byte {
            b'\n' => self.put("\\n"),
            b'\r' => self.put("\\r"),
            b'\t' => self.put("\\t"),
            b'\\' => self.put("\\\\"),
            0..=31 | 127 => {
                let alloc = self.alloc;
                let text = format!(in alloc; "\\x{byte:02x}")?;
                self.put(text.as_str())
            }
            _ => {
                self.text.push(byte)?;
                Ok(())
            }
        }
    }

    fn put_bytes(&mut self, bytes: &[u8]) -> Result<(), Memory> {
        for byte in bytes {
            self.put_byte(*byte)?;
        }
        Ok(())
    }

    // A line of what was expected or came, around the place of the first difference.
    fn put_line(&mut self, label: &str, bytes: &[u8], from: usize) -> Result<(), Memory> {
        self.put(label)?;
        match bytes.get(from..) {
            None | Some([]) => self.put("(nothing more)")?,
            Some(rest) => {
                let end = rest
                    .iter()
                    .position(|byte| *byte == b'\n')
                    .unwrap_or(rest.len());
                self.put_bytes(&rest[..end.saturating_add(1).min(rest.len()).min(MOST_SHOWN)])?;
            }
        }
        self.put("\n")
    }

    /// Begins to tell a difference.
    pub(crate) fn differ(&mut self, what: &str) -> Result<(), Memory> {
        self.differences = self.differences.saturating_add(1);
        self.put("    ")?;
        self.put(what)
    }

    /// A number that was expected, and one that came.
    pub(crate) fn compare_numbers(
        &mut self,
        what: &str,
        expected: u64,
        came: u64,
    ) -> Result<(), Memory> {
        if expected == came {
            return Ok(());
        }
        self.differ(what)?;
        self.put(": expected ")?;
        self.put_number(expected)?;
        self.put(", came ")?;
        self.put_number(came)?;
        self.put("\n")
    }

    /// Bytes that were expected, and those that came.
    pub(crate) fn compare_bytes(
        &mut self,
        what: &str,
        expected: &[u8],
        came: &[u8],
    ) -> Result<(), Memory> {
        if expected == came {
            return Ok(());
        }
        let at = first_difference(expected, came);
        let from = line_begin(expected, at);
        self.differ(what)?;
        self.put(", byte ")?;
        self.put_number((at as u64).saturating_add(1))?;
        self.put("\n")?;
        self.put_line("      expected: ", expected, from)?;
        self.put_line("      came:     ", came, from)
    }
}

// The place of the first byte that differs, or where the shorter one ends.
fn first_difference(expected: &[u8], came: &[u8]) -> usize {
    let found = expected
        .iter()
        .zip(came)
        .position(|(one, other)| *one != *other);
    found.unwrap_or(expected.len().min(came.len()))
}

// Where the line of a place begins.
fn line_begin(bytes: &[u8], at: usize) -> usize {
    match bytes.get(..at) {
        Some(front) => match front.iter().rposition(|byte| *byte == b'\n') {
            Some(newline) => newline.saturating_add(1),
            None => 0,
        },
        None => 0,
    }
}
