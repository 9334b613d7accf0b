ghost use Rattle.std.specs.Prelude.{◌+◌, ◌≤◌, length, vec_capacity};

use crate::calls::Calls;
use crate::doors::Doors;
use crate::folders::Failed;
use crate::memory_links::MemoryLink;
use dv_text::{List, Memory};
use std::alloc::Global;

/// Doors in memory, with the connections that come through them.
#[derive(Debug, Drop)]
pub struct MemoryDoors {
    coming: Vec<MemoryLink>,
    given: u64,
    served: Vec<MemoryLink>,
    port: Option<u16>,
    calls: Calls,
    ghost roomy: { given + length coming.items ≤ vec_capacity served },
    ghost within: { length served.items ≤ given },
}

impl MemoryDoors {
    ghost use Rattle.std.specs.Prelude.{◌≡◌, [], IfOk, None};
    ghost use Rattle.dv_outside.specs.MemoryDoors.{doors_coming, doors_given, doors_served, doors_port, doors_calls, doors_fails, doors_faults};

    /// Doors through which these connections come, in their order. The calls of `next` whose numbers, from
    /// 1, are among `fails` are to fail. Room for the connections that are given back is made here.
    pub fn new(
        alloc: Global,
        lines: List<MemoryLink>,
        fails: List<u64>,
    ) -> Result<MemoryDoors, Memory>
        ensures coming { IfOk result (λ d. doors_coming d ≡ lines) }
        ensures given { IfOk result (λ d. doors_given d ≡ 0) }
        ensures served { IfOk result (λ d. doors_served d ≡ []) }
        ensures port { IfOk result (λ d. doors_port d ≡ None) }
        ensures calls { IfOk result (λ d. doors_calls d ≡ 0) }
        ensures fails { IfOk result (λ d. doors_fails d ≡ fails) }
        ensures faults { IfOk result (λ d. doors_faults d ≡ 0) }
    {
        let coming = lines.into_vec()?;
        Ok(MemoryDoors {
            served: Vec::with_capacity(alloc, coming.len())?,
            coming,
            given: 0,
            port: None,
            calls: Calls::new(fails),
        })
    }

    /// The port that was named last.
    pub fn port(&self) -> Option<u16>
        ensures { result ≡ doors_port self.now }
    {
        self.port
    }

    /// The connections that were given back, in their order.
    pub fn served(&self) -> &[MemoryLink]
        ensures { result.now ≡ doors_served self.now }
    {
        self.served.as_slice()
    }
}

impl Doors for MemoryDoors {
    ghost use Rattle.std.specs.Prelude.{◌≡◌, ◌↔◌, Some, IfOk, IfSome, OnErr, IsErr, IsTrue, is_ok, if◌then◌else◌};
    ghost use Rattle.dv_text.specs.Causes.{HasCause};
    ghost use Rattle.dv_outside.specs.Calls.{one_more};
    ghost use Rattle.dv_outside.specs.Lines.{GivesNext, MayTakeBack};
    ghost use Rattle.dv_outside.specs.MemoryDoors.{doors_lines, doors_port, doors_calls, doors_fails, doors_faults, doors_fails_next};

    type Line = MemoryLink;

    ghost lines = { λ d. Some (doors_lines d) };

    ghost named = { doors_port };

    ghost faults = { doors_faults };

    fn listen(&mut self, port: u16) {
        self.port = Some(port);
    }

    fn next(&mut self) -> Result<Option<MemoryLink>, Failed>
        ensures ok { IfOk result (λ line. GivesNext (Some (doors_lines self.old)) (Some (doors_lines self.new)) line) }
        ensures owed { IfOk result (λ line. IfSome line (λ _. MayTakeBack (Some (doors_lines self.new)))) }
        ensures err { OnErr result (Some (doors_lines self.new) ≡ Some (doors_lines self.old)) }
        ensures port { doors_port self.new ≡ doors_port self.old }
        ensures cause { HasCause (doors_faults self.old) (doors_faults self.new) result }

        // A call fails exactly where it is to, and the count of faults rises exactly then.
        ensures fails { IsErr result ↔ IsTrue (doors_fails_next self.old) }
        ensures faults { doors_faults self.new
            ≡ (if is_ok result then doors_faults self.old else one_more (doors_faults self.old)) }
        ensures calls { doors_calls self.new ≡ one_more (doors_calls self.old) }
        ensures plan { doors_fails self.new ≡ doors_fails self.old }
    {
        self.calls.begin()?;
        if self.coming.is_empty() {
            return Ok(None);
        }
        self.given += 1;
        Ok(Some(self.coming.remove(0)))
    }

    fn done(&mut self, line: MemoryLink) {
        match self.served.push(line) {
            Ok(()) => {}
            Err(_) => unreachable!(),
        }
    }
}
