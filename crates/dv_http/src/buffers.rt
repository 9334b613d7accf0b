ghost use Rattle.std.specs.Prelude.{◌≡◌, ◌≤◌, length};

use dv_outside::{Failed, Link};
use dv_text::Memory;
use std::alloc::Global;

/// The bytes of a connection that were read and not yet taken.
#[derive(Debug, Drop)]
pub struct Buffer {
    bytes: Vec<u8>,
    start: usize,
    end: usize,
    spent: bool,
    ghost sized: { length bytes.items ≡ 32768 },
    ghost ordered: { start ≤ end },
    ghost within: { end ≤ 32768 },
}

/// For how many bytes a buffer has room.
const ROOM: usize = 32_768;

impl Buffer {
    ghost use Rattle.std.specs.Prelude.{◌≡◌, ◌<◌, ◌≤◌, ◌+◌, [], ◌++◌, IfOk, OnErr, OnOk, true, false, length, min, drop};
    ghost use Rattle.dv_text.specs.Causes.{HasCause};
    ghost use Rattle.dv_http.specs.Buffers.{held, is_spent, room, Came, HasEnded};

    /// A buffer that holds nothing. It takes all its memory here.
    pub fn new(alloc: Global) -> Result<Buffer, Memory>
        ensures held { IfOk result (λ buffer. held buffer ≡ []) }
        ensures spent { IfOk result (λ buffer. is_spent buffer ≡ false) }
    {
        Ok(Buffer {
            bytes: vec![in alloc; 0; ROOM]?,
            start: 0,
            end: 0,
            spent: false,
        })
    }

    /// Whether a call with it answered an error.
    pub fn is_spent(&self) -> bool
        ensures { result ≡ is_spent self.now }
    {
        self.spent
    }

    pub(crate) fn spend(&mut self)
        ensures held { held self.new ≡ held self.old }
        ensures spent { is_spent self.new ≡ true }
    {
        self.spent = true;
    }

    pub(crate) fn held(&self) -> &[u8]
        ensures { result.now ≡ held self.now }
    {
        &self.bytes[self.start..self.end]
    }

    /// Takes bytes from the front.
    pub(crate) fn skip(&mut self, count: usize)
        requires { count ≤ length (held self.old) }
        ensures held { held self.new ≡ drop count (held self.old) }
        ensures spent { is_spent self.new ≡ is_spent self.old }
    {
        self.start += count;
    }

    /// Puts bytes from the front at the end of a body, at most so many.
    pub(crate) fn give(&mut self, body: &mut Vec<u8>, most: usize) -> Result<(), Memory>
        ensures moved { OnOk result (body.new.items ++ held self.new ≡ body.old.items ++ held self.old) }
        ensures count { OnOk result (length body.new.items
            ≡ length body.old.items + min most (length (held self.old))) }
        ensures spent { is_spent self.new ≡ is_spent self.old }
    {
        let count = self.held().len().min(most);
        body.extend_from_slice(&self.held()[..count])?;
        self.skip(count);
        Ok(())
    }

    // Makes room behind what is held.
    fn settle(&mut self)
        requires { length (held self.old) < room }
        ensures held { held self.new ≡ held self.old }
        ensures spent { is_spent self.new ≡ is_spent self.old }
        ensures room { self.new.end < room }
    {
        if self.start == self.end {
            self.start = 0;
            self.end = 0;
        }
        if self.end == ROOM {
            let start = self.start;
            self.bytes.as_mut_slice().rotate_left(start);
            self.end -= start;
            self.start = 0;
        }
    }

    /// Reads once, and answers how many bytes came behind those that are held.
    pub(crate) fn fill<L: Link>(&mut self, link: &mut L) -> Result<usize, Failed>
        requires { length (held self.old) < room }
        ensures came { OnOk result (Came (held self.old) (held self.new) (L.left link.old) (L.left link.new)) }
        ensures count { IfOk result (λ n. length (held self.new) ≡ length (held self.old) + n) }
        ensures err { OnErr result ((held self.new ≡ held self.old) × (L.left link.new ≡ L.left link.old)) }
        ensures ended { IfOk result (λ n. n ≡ 0 → HasEnded (L.left link.new)) }
        ensures kept { L.contents link.new ≡ L.contents link.old }
        ensures spent { is_spent self.new ≡ is_spent self.old }
        ensures cause { HasCause (L.faults link.old) (L.faults link.new) result }
    {
        self.settle();
        let end = self.end;
        let count = link.read(&mut self.bytes.as_mut_slice()[end..])?;
        self.end += count;
        Ok(count)
    }
}
