ghost use Rattle.std.specs.Prelude.{◌<◌, ◌≤◌, length};

use crate::folders::Failed;
use crate::links::Link;
use crate::memory_sinks::MemorySink;
use crate::sinks::Sink;
use dv_text::{List, Memory};
use std::alloc::Global;

/// A connection in memory: bytes that are read in pieces of at most so many, and a sink.
#[derive(Debug, Drop)]
pub struct MemoryLink {
    input: List<u8>,
    at: usize,
    piece: usize,
    sink: MemorySink,
    ghost begun: { at ≤ length input },
    ghost some: { 0 < piece },
}

impl MemoryLink {
    ghost use Rattle.std.specs.Prelude.{◌≡◌, [], IfOk};
    ghost use Rattle.dv_outside.specs.MemoryLinks.{link_left, link_piece, link_written, link_room, link_calls, link_fails, link_faults};

    /// A connection from which `input` comes, at most `piece` bytes a read, and that takes `room` bytes in
    /// all, for which it makes the room. The reads and writes whose numbers, from 1 and counted together,
    /// are among `fails` are to fail.
    pub fn new(
        alloc: Global,
        input: List<u8>,
        piece: u32,
        room: u64,
        fails: List<u64>,
    ) -> Result<MemoryLink, Memory>
        requires { 0 < piece }
        ensures left { IfOk result (λ l. link_left l ≡ input) }
        ensures piece { IfOk result (λ l. link_piece l ≡ piece) }
        ensures written { IfOk result (λ l. link_written l ≡ []) }
        ensures room { IfOk result (λ l. link_room l ≡ room) }
        ensures calls { IfOk result (λ l. link_calls l ≡ 0) }
        ensures fails { IfOk result (λ l. link_fails l ≡ fails) }
        ensures faults { IfOk result (λ l. link_faults l ≡ 0) }
    {
        Ok(MemoryLink {
            input,
            at: 0,
            piece: piece as usize,
            sink: MemorySink::new(alloc, room, fails)?,
        })
    }

    /// The bytes written so far.
    pub fn written(&self) -> &[u8]
        ensures { result.now ≡ link_written self.now }
    {
        self.sink.written()
    }
}

impl Link for MemoryLink {
    ghost use Rattle.std.specs.Prelude.{◌≡◌, ◌<◌, ◌≤◌, ◌↔◌, ◌⊎◌, Some, IfOk, OnErr, IsErr, IsTrue, is_ok, length, min, take, if◌then◌else◌};
    ghost use Rattle.dv_text.specs.Causes.{HasCause};
    ghost use Rattle.dv_outside.specs.Bytes.{after, in_front, IsZeroAtEnd};
    ghost use Rattle.dv_outside.specs.Calls.{one_more};
    ghost use Rattle.dv_outside.specs.MemoryLinks.{link_left, link_piece, link_written, link_room, link_room_left, link_calls, link_fails, link_faults, link_fails_next};

    ghost left = { λ l. Some (link_left l) };

    ghost contents = { λ l. Some (link_written l) };

    ghost faults = { link_faults };

    fn read(&mut self, into: &mut [u8]) -> Result<usize, Failed>
        requires { 0 < length into.old }
        ensures within { IfOk result (λ n. n ≤ length into.new) }
        ensures ok { IfOk result (λ n. Some (link_left self.old) ≡ in_front (take n into.new) (Some (link_left self.new))) }
        ensures end { IfOk result (λ n. IsZeroAtEnd n (Some (link_left self.old))) }
        ensures err { OnErr result (Some (link_left self.new) ≡ Some (link_left self.old)) }
        ensures kept { Some (link_written self.new) ≡ Some (link_written self.old) }
        ensures cause { HasCause (link_faults self.old) (link_faults self.new) result }

        // A read gives what is left, up to the piece and to what is asked for. It fails exactly where it is
        // to, and the count of faults rises exactly then.
        ensures takes { IfOk result (λ n. n
            ≡ min (length (link_left self.old)) (min (link_piece self.old) (length into.old))) }
        ensures fails { IsErr result ↔ IsTrue (link_fails_next self.old) }
        ensures faults { link_faults self.new
            ≡ (if is_ok result then link_faults self.old else one_more (link_faults self.old)) }
        ensures calls { link_calls self.new ≡ one_more (link_calls self.old) }
        ensures plan { link_fails self.new ≡ link_fails self.old }
        ensures room { link_room self.new ≡ link_room self.old }
        ensures piece { link_piece self.new ≡ link_piece self.old }
    {
        self.sink.pass()?;
        let left = &self.input.items()[self.at..];
        let count = left.len().min(self.piece.min(into.len()));
        into[..count].copy_from_slice(&left[..count]);
        self.at += count;
        Ok(count)
    }

    fn write(&mut self, piece: &[u8]) -> Result<usize, Failed>
        requires { 0 < length piece.now }
        ensures some { IfOk result (λ n. 0 < n) }
        ensures within { IfOk result (λ n. n ≤ length piece.now) }
        ensures ok { IfOk result (λ n. Some (link_written self.new) ≡ after (Some (link_written self.old)) (take n piece.now)) }
        ensures err { OnErr result (Some (link_written self.new) ≡ Some (link_written self.old)) }
        ensures kept { Some (link_left self.new) ≡ Some (link_left self.old) }
        ensures cause { HasCause (link_faults self.old) (link_faults self.new) result }

        // A write takes what still fits. It fails exactly where it is to or nothing fits, and the count of
        // faults rises exactly then.
        ensures takes { IfOk result (λ n. n ≡ min (link_room_left self.old) (length piece.now)) }
        ensures fails { IsErr result ↔ (IsTrue (link_fails_next self.old) ⊎ (link_room_left self.old ≡ 0)) }
        ensures faults { link_faults self.new
            ≡ (if is_ok result then link_faults self.old else one_more (link_faults self.old)) }
        ensures calls { link_calls self.new ≡ one_more (link_calls self.old) }
        ensures plan { link_fails self.new ≡ link_fails self.old }
        ensures room { link_room self.new ≡ link_room self.old }
        ensures piece { link_piece self.new ≡ link_piece self.old }
    {
        self.sink.write(piece)
    }
}
