// Sinks in memory, and one that is slow.
ghost use Rattle.std.specs.Prelude.{◌≡◌, ◌≤◌, ◌<◌, IsOk, [], length, ◌++◌};
ghost use Rattle.dv_outside.specs.MemorySinks.{sink_fails, sink_faults, sink_left, sink_written};

use crate::values::numbers;
use dv_outside::{Failed, MemorySink, Sink, write_all, write_line};
use dv_text::{List, Memory};
use std::alloc::Global;

fn sink(alloc: Global, room: u64, fails: &[u64]) -> Result<MemorySink, Memory> {
    MemorySink::new(alloc, room, numbers(alloc, fails)?)
}

/// A sink that takes a byte at a time.
#[derive(Drop)]
struct SlowSink {
    sink: MemorySink,
}

impl Sink for SlowSink {
    ghost use Rattle.std.specs.Prelude.{Some};
    ghost use Rattle.dv_outside.specs.MemorySinks.{sink_faults, sink_written};

    ghost contents = { λ s. Some (sink_written s.sink) };

    ghost faults = { λ s. sink_faults s.sink };

    fn write(&mut self, piece: &[u8]) -> Result<usize, Failed> {
        self.sink.write(&piece[..1])
    }
}

// Whether a line is written so to a slow sink with this room and these failures.
fn is_written_slowly(
    made: Result<MemorySink, Memory>,
    expected: Result<(), Failed>,
    written: &[u8],
) -> bool {
    match made {
        Ok(sink) => {
            let mut slow = SlowSink { sink };
            write_line(&mut slow, b"one", b" two") == expected && slow.sink.written() == written
        }
        Err(Memory) => false,
    }
}

// Whether a fast sink takes just these bytes of the line.
fn is_written_fast(made: Result<MemorySink, Memory>, written: &[u8]) -> Option<bool> {
    match made {
        Ok(mut sink) => {
            let _ = write_all(&mut sink, b"one two\n");
            Some(sink.written() == written)
        }
        Err(Memory) => None,
    }
}

const LINES: &[(u64, &[u64], Result<(), Failed>, &[u8])] = &[
    (9, &[], Ok(()), b"one two\n"),
    (9, &[3], Err(Failed), b"on"),
    (5, &[], Err(Failed), b"one t"),
    (0, &[], Err(Failed), b""),
];

#[test]
fn texts_are_written_whole_or_cut_short(rt: HostRuntime) {
    let alloc = rt.alloc();
    for (room, fails, expected, written) in LINES {
        assert!(rt; is_written_slowly(sink(alloc, *room, fails), *expected, written));
        let same = is_written_fast(sink(alloc, *room, fails), written);
        assert!(rt; same == Some(fails.is_empty()));
    }
}

// Over a sink in memory that is to fail at no call, and has room for the text, no write fails, and the count of faults
// stays.
fn write_quietly(sink: &mut MemorySink, text: &[u8]) -> Result<(), Failed>
    requires plan { sink_fails sink.old ≡ [] }
    requires room { length text.now ≤ sink_left sink.old }
    ensures works { IsOk result }
    ensures written { sink_written sink.new ≡ sink_written sink.old ++ text.now }
    ensures faults { sink_faults sink.new ≡ sink_faults sink.old }
    ensures again { sink_fails sink.new ≡ [] }
{
    if text.is_empty() {
        return Ok(());
    }
    sink.write(text)?;
    Ok(())
}

#[test]
fn a_roomy_sink_without_planned_failures_does_not_fail(rt: HostRuntime) {
    let alloc = rt.alloc();
    let mut sink = MemorySink::new(alloc, 3, List::new(alloc)).expect(&rt, "memory");
    assert!(rt; write_quietly(&mut sink, b"abc") == Ok(()));
    assert!(rt; sink.written() == b"abc".as_slice());
}
