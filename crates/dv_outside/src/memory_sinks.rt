ghost use Rattle.std.specs.Prelude.{◌≤◌, vec_capacity};

use crate::calls::Calls;
use crate::folders::Failed;
use crate::sinks::Sink;
use dv_text::{List, Memory};
use std::alloc::Global;

/// A sink in memory, with room for so many bytes.
#[derive(Debug, Drop)]
pub struct MemorySink {
    written: Vec<u8>,
    room: usize,
    calls: Calls,
    ghost roomy: { room ≤ vec_capacity written },
}

impl MemorySink {
    ghost use Rattle.std.specs.Prelude.{[], IfOk, ◌≡◌, is_ok, not, if◌then◌else◌};
    ghost use Rattle.dv_text.specs.Causes.{HasCause};
    ghost use Rattle.dv_outside.specs.Calls.{one_more};
    ghost use Rattle.dv_outside.specs.MemorySinks.{sink_written, sink_room, sink_writes, sink_fails, sink_faults, sink_fails_next};

    /// An empty sink that takes `room` bytes in all, and makes the room for them. The writes whose numbers,
    /// from 1, are among `fails` are to fail.
    pub fn new(alloc: Global, room: u64, fails: List<u64>) -> Result<MemorySink, Memory>
        ensures written { IfOk result (λ s. sink_written s ≡ []) }
        ensures room { IfOk result (λ s. sink_room s ≡ room) }
        ensures writes { IfOk result (λ s. sink_writes s ≡ 0) }
        ensures fails { IfOk result (λ s. sink_fails s ≡ fails) }
        ensures faults { IfOk result (λ s. sink_faults s ≡ 0) }
    {
        let room = room as usize;
        Ok(MemorySink {
            written: Vec::with_capacity(alloc, room)?,
            room,
            calls: Calls::new(fails),
        })
    }

    // Counts a call that writes nothing, and fails where it is to.
    pub(crate) fn pass(&mut self) -> Result<(), Failed>
        ensures fails { is_ok result ≡ not (sink_fails_next self.old) }
        ensures faults { sink_faults self.new
            ≡ (if is_ok result then sink_faults self.old else one_more (sink_faults self.old)) }
        ensures writes { sink_writes self.new ≡ one_more (sink_writes self.old) }
        ensures plan { sink_fails self.new ≡ sink_fails self.old }
        ensures room { sink_room self.new ≡ sink_room self.old }
        ensures written { sink_written self.new ≡ sink_written self.old }
        ensures cause { HasCause (sink_faults self.old) (sink_faults self.new) result }
    {
        self.calls.begin()
    }

    /// The bytes written so far.
    pub fn written(&self) -> &[u8]
        ensures { result.now ≡ sink_written self.now }
    {
        self.written.as_slice()
    }
}

impl Sink for MemorySink {
    ghost use Rattle.std.specs.Prelude.{◌≡◌, ◌<◌, ◌≤◌, ◌↔◌, ◌⊎◌, Some, IfOk, OnErr, IsErr, IsTrue, is_ok, length, min, take, if◌then◌else◌};
    ghost use Rattle.dv_text.specs.Causes.{HasCause};
    ghost use Rattle.dv_outside.specs.Bytes.{after};
    ghost use Rattle.dv_outside.specs.Calls.{one_more};
    ghost use Rattle.dv_outside.specs.MemorySinks.{sink_written, sink_room, sink_left, sink_writes, sink_fails, sink_faults, sink_fails_next};

    ghost contents = { λ s. Some (sink_written s) };

    ghost faults = { sink_faults };

    fn write(&mut self, piece: &[u8]) -> Result<usize, Failed>
        requires { 0 < length piece.now }
        ensures some { IfOk result (λ n. 0 < n) }
        ensures within { IfOk result (λ n. n ≤ length piece.now) }
        ensures ok { IfOk result (λ n. Some (sink_written self.new) ≡ after (Some (sink_written self.old)) (take n piece.now)) }
        ensures err { OnErr result (Some (sink_written self.new) ≡ Some (sink_written self.old)) }
        ensures cause { HasCause (sink_faults self.old) (sink_faults self.new) result }

        // A write takes what still fits. It fails exactly where it is to or nothing fits, and the count of
        // faults rises exactly then.
        ensures takes { IfOk result (λ n. n ≡ min (sink_left self.old) (length piece.now)) }
        ensures fails { IsErr result ↔ (IsTrue (sink_fails_next self.old) ⊎ (sink_left self.old ≡ 0)) }
        ensures faults { sink_faults self.new
            ≡ (if is_ok result then sink_faults self.old else one_more (sink_faults self.old)) }
        ensures writes { sink_writes self.new ≡ one_more (sink_writes self.old) }
        ensures plan { sink_fails self.new ≡ sink_fails self.old }
        ensures room { sink_room self.new ≡ sink_room self.old }
    {
        self.calls.begin()?;
        let left = self.room.saturating_sub(self.written.len());
        let count = left.min(piece.len());
        if count == 0 || self.written.extend_from_slice(&piece[..count]).is_err() {
            self.calls.fault();
            return Err(Failed);
        }
        Ok(count)
    }
}
