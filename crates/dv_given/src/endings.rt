// How commands end that do not come to their end: with a last line and a status.
ghost use Rattle.std.specs.Prelude.{◌≡◌, ◌≤◌, IfOk};
ghost use Rattle.dv_outside.specs.Seen.{seen};
ghost use Rattle.dv_given.specs.Endings.{line_of_ending, status_of, EndsBy, EndsOrMemory};

use crate::lines::{
    ABSENT, DAMAGED, KEEPER_FAULT, MAPPING_DIFFERS, MAPPING_NONE, MAPPING_REFUSED, MEMORY, PROGRAM,
    READ_FAULT, damage_text, line_text,
};
use dv_catalog::{MapError, printed};
use dv_outside::{Sink, Status, end};
use dv_print::QueryRule;
use dv_records::{Damage, KeeperError};
use dv_restore::{StartFault, StoreFault};
use dv_text::{Memory, Text};
use std::alloc::Global;

/// How a command ends that does not come to its end.
#[derive(Drop)]
pub enum Ending {
    /// The mapping's file is refused.
    BadMapping(MapError),
    /// No mapping is stored.
    NoMapping,
    /// Another mapping is stored than the file's.
    OtherMapping,
    /// What is asked for is refused.
    BadQuery(QueryRule),
    /// The folder has no file of the name.
    Absent(Text),
    /// The file of the name could not be read.
    Unread(Text),
    /// A row of the store breaks a rule of form.
    Damaged(Damage),
    /// A call of the keeper failed.
    KeeperFault,
    /// Memory ran out.
    Memory,
    /// A text or a line could not be written.
    Unwritten,
}

impl From<Memory> for Ending {
    ghost use Rattle.std.specs.Prelude.{◌≡◌};
    ghost use Rattle.dv_given.specs.declared.endings.Ending.TheVariants as endings;

    ghost from_gives = { λ _ ending. ending ≡ endings.Memory };

    fn from(_memory: Memory) -> Ending {
        Ending::Memory
    }
}

impl From<StoreFault> for Ending {
    ghost use Rattle.std.specs.Prelude.{◌≡◌};
    ghost use Rattle.dv_given.specs.Endings.{ending_of_store};

    ghost from_gives = { λ fault ending. ending ≡ ending_of_store fault };

    fn from(fault: StoreFault) -> Ending {
        match fault {
            StoreFault::Damaged(damage) => Ending::Damaged(damage),
            StoreFault::KeeperFault => Ending::KeeperFault,
            StoreFault::Memory => Ending::Memory,
        }
    }
}

impl From<StartFault> for Ending {
    ghost use Rattle.std.specs.Prelude.{◌≡◌};
    ghost use Rattle.dv_given.specs.Endings.{ending_of_start};

    ghost from_gives = { λ fault ending. ending ≡ ending_of_start fault };

    fn from(fault: StartFault) -> Ending {
        match fault {
            StartFault::NoMapping => Ending::NoMapping,
            StartFault::Unread(unread) => unread.into(),
        }
    }
}

impl From<KeeperError> for Ending {
    ghost use Rattle.std.specs.Prelude.{◌≡◌};
    ghost use Rattle.dv_given.specs.Endings.{ending_of_error};

    ghost from_gives = { λ error ending. ending ≡ ending_of_error error };

    fn from(error: KeeperError) -> Ending {
        match error {
            KeeperError::Failed => Ending::KeeperFault,
            KeeperError::Memory => Ending::Memory,
        }
    }
}

impl Ending {
    ghost use Rattle.std.specs.Prelude.{◌≡◌, IfOk};
    ghost use Rattle.dv_given.specs.Endings.{line_of_ending, status_of};

    /// The status of a command that ends so.
    pub fn status(&self) -> Status
        ensures { result ≡ status_of self.now }
    {
        match self {
            Ending::BadMapping(_) | Ending::NoMapping | Ending::OtherMapping => Status::Mapping,
            Ending::BadQuery(_) => Status::Refused,
            Ending::Absent(_) | Ending::Unread(_) => Status::ReadFault,
            Ending::Damaged(_) => Status::Damaged,
            Ending::KeeperFault => Status::KeeperFault,
            Ending::Memory => Status::Memory,
            Ending::Unwritten => Status::WriteFault,
        }
    }

    /// The last line of a command that ends so; it is empty where nothing more can be written.
    pub fn line(&self, alloc: Global) -> Result<Text, Memory>
        ensures { IfOk result (λ line. line ≡ line_of_ending self.now) }
    {
        match self {
            Ending::BadMapping(e) => line_text(alloc, MAPPING_REFUSED, e.printed(alloc)?.bytes()),
            Ending::NoMapping => Text::of(alloc, MAPPING_NONE),
            Ending::OtherMapping => Text::of(alloc, MAPPING_DIFFERS),
            Ending::BadQuery(rule) => line_text(alloc, PROGRAM, rule.printed(alloc)?.bytes()),
            Ending::Absent(name) => {
                line_text(alloc, ABSENT, printed(alloc, name.bytes())?.bytes())
            }
            Ending::Unread(name) => {
                line_text(alloc, READ_FAULT, printed(alloc, name.bytes())?.bytes())
            }
            Ending::Damaged(damage) => {
                line_text(alloc, DAMAGED, damage_text(alloc, damage)?.bytes())
            }
            Ending::KeeperFault => Text::of(alloc, KEEPER_FAULT),
            Ending::Memory => Text::of(alloc, MEMORY),
            Ending::Unwritten => Ok(Text::empty()),
        }
    }
}

// Writes the line of what ends a command, and answers its status.
fn end_with_line<E: Sink>(alloc: Global, err: &mut E, ending: &Ending) -> Status
    ensures says { EndsOrMemory (status_of ending.now) (line_of_ending ending.now) (seen E.contents E.faults err.old err.new) result }
    ensures later { E.faults err.old ≤ E.faults err.new }
{
    match ending.line(alloc) {
        Ok(line) => end(err, line.bytes(), ending.status()),
        Err(Memory) => end(err, MEMORY, Status::Memory),
    }
}

/// Ends a command: with the last line of how it ends, or with that of want of memory where the line
/// could not be made. Where it ends because nothing could be written, nothing more is.
pub fn end_command<E: Sink>(alloc: Global, err: &mut E, ending: &Ending) -> Status
    ensures says { EndsBy ending.now (seen E.contents E.faults err.old err.new) result }
    ensures later { E.faults err.old ≤ E.faults err.new }
{
    match ending {
        Ending::Unwritten => Status::WriteFault,
        _ => end_with_line(alloc, err, ending),
    }
}
